//! Laws on spans and their cost. Each is the contract of a function that does nothing.
ghost use Rattle.std.specs.Prelude.{◌≤◌};
ghost use Rattle.span_lanes.specs.Laws.{SpanLaw, CostLaw, raw_row};
ghost use Rattle.span_lanes.specs.Cost.{span_cost};

/// Drawing a span by cell numbers equals drawing the cells of its row from left to right.
pub fn span_is_cells()
    ensures { SpanLaw }
{}

/// A span costs at most four steps per cell.
pub fn span_cost_is_small()
    ensures { CostLaw }
{}

/// Limits on the cost of three rows of raw texels:
///
/// - four 15-bit texels, each in the cell to the left of the one that is drawn;
/// - three 4-bit texels, drawn over the first cells of their CLUT;
/// - 32 15-bit texels in another row.
pub fn some_costs()
    ensures smeared { span_cost (raw_row (record { x = 0; y = 0; depth = 2 }) 1 0 4) ≤ 12 }
    ensures own_clut { span_cost (raw_row (record { x = 64; y = 0; depth = 0 }) 0 0 3) ≤ 12 }
    ensures far { span_cost (raw_row (record { x = 0; y = 256; depth = 2 }) 0 0 32) ≤ 36 }
{}
