//! Laws on drawing and its cost. Each is the contract of a function that does nothing.
ghost use Rattle.std.specs.Prelude.{◌≤◌, true, false};
ghost use Rattle.prim_draw.specs.Costs.{draw_cost};
ghost use Rattle.prim_draw.specs.Laws.{CostLaw, open_registers, raw_rectangle, white_half};
ghost use Rattle.prim_draw.specs.Staying.{DrawingIsLocal, DrawingStays};

/// A packet costs at most four steps for each cell of the boxes of its triangles, its segment or its rectangle.
pub fn costs_are_small()
    ensures { CostLaw }
{}

/// Limits on the cost of five packets:
///
/// - four raw 15-bit texels, each in the cell to the left of the one that is drawn;
/// - three raw 4-bit texels, drawn over the first cells of their CLUT;
/// - 32 raw 15-bit texels in another row;
/// - the upper left half of a white square of 8 by 8 cells;
/// - the whole square, semi-transparent.
pub fn some_costs()
    ensures smeared { draw_cost (open_registers 0x100) (raw_rectangle 1 0 4 1) ≤ 12 }
    ensures own_clut { draw_cost (open_registers 1) (raw_rectangle 0 0 3 1) ≤ 12 }
    ensures far { draw_cost (open_registers 0x110) (raw_rectangle 0 0 32 1) ≤ 36 }
    ensures half { draw_cost (open_registers 0) (white_half false false) ≤ 16 }
    ensures square { draw_cost (open_registers 0) (white_half true true) ≤ 30 }
{}

/// Drawing changes no cell outside its area. Without a texture, the new value of a cell depends on no other cell.
pub fn drawing_is_local()
    ensures stays { DrawingStays }
    ensures local { DrawingIsLocal }
{}
