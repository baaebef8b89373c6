//! Laws on hazards. Each is in the contract of a function that does nothing.
ghost use Rattle.overlap_guard.specs.Laws.{OtherRowLaw, LeftwardLaw, FarLaw};

/// Three kinds of copies have no hazard: the target is in another row; it starts in the source's column or to its
/// left; or it starts to the right of the last cell that is read.
pub fn copies_without_hazard()
    ensures other_row { OtherRowLaw }
    ensures leftward { LeftwardLaw }
    ensures far { FarLaw }
{}
