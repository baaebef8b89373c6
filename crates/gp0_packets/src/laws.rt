//! Facts about every packet. Each is the contract of an empty function.
ghost use Rattle.gp0_packets.specs.Loads.{LoadsAreOpened};

/// A whole item opens a load exactly if data words follow it, and the load needs as many as follow.
pub fn loads_are_opened()
    ensures { LoadsAreOpened }
{}
