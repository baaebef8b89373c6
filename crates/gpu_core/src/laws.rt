//! The costs of words and reads, and what decides the later behaviour of a GPU. Each law is the contract of a function
//! that does nothing.
ghost use Rattle.gpu_core.specs.Laws.{CostLaw, KeptDecides, NoCellDecides};

/// A word of GP0 or a read costs at most four store steps a cell. The cells are those of a clipped box, of the
/// rectangle of a fill or copy, or those that a data word of a load or a read moves.
pub fn costs_are_small()
    ensures { CostLaw }
{}

/// The bound of [`costs_are_small`], the first table of costs, depends on no cell of video memory.
pub fn cells_cost_nothing()
    ensures { NoCellDecides }
{}

/// The essential part of a state decides the later behaviour: the effect, note, result and cost of each word of GP0 or
/// GP1, read and status word. So states with equal essential parts behave alike, whatever their words are.
pub fn kept_decides()
    ensures { KeptDecides }
{}
