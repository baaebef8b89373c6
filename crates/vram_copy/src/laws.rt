//! Laws on the costs of copies and fills, and on how a copied row is cut. Each is in the contract of a function that
//! does nothing.
ghost use Rattle.std.specs.Prelude.{◌≤◌};
ghost use Rattle.vram_copy.specs.Costs.{copy_cost, fill_cost};
ghost use Rattle.vram_copy.specs.Laws.{LastCutLaw, ChunksLaw, CopyCostLaw, FillCostLaw};

/// A row of a copy is cut at its first cell and at the cells at which source or target is in column 0. Each piece is
/// cut, from its left, into chunks of sixteen cells and a last, shorter one.
pub fn rows_are_cut_in_chunks()
    ensures last_cut { LastCutLaw }
    ensures chunks { ChunksLaw }
{}

/// A copy costs at most three steps per cell, and a fill at most four.
pub fn costs_are_small()
    ensures copies { CopyCostLaw }
    ensures fills { FillCostLaw }
{}

/// Upper bounds of some costs. Copies of sixteen cells: one column to the right, sixteen columns to the right, and
/// one column to the left. A copy of all video memory one column to the right. A fill of sixteen cells.
pub fn some_costs()
    ensures one_right { copy_cost 512 (record { x = 0; y = 0 }) (record { x = 1; y = 0 }) 16 1 ≤ 48 }
    ensures apart { copy_cost 512 (record { x = 0; y = 0 }) (record { x = 16; y = 0 }) 16 1 ≤ 3 }
    ensures one_left { copy_cost 512 (record { x = 1; y = 0 }) (record { x = 0; y = 0 }) 16 1 ≤ 3 }
    ensures whole { copy_cost 512 (record { x = 0; y = 0 }) (record { x = 1; y = 0 }) 1024 512 ≤ 1572864 }
    ensures fill { fill_cost 16 1 ≤ 1 }
{}
