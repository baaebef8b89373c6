//! Facts about all registers. Each is the contract of an empty function.
ghost use Rattle.gp1_status.specs.Words.{WordsSayAll};

/// The words of registers, read again, are these registers.
pub fn words_say_all()
    ensures { WordsSayAll }
{}
