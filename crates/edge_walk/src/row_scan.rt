// The rows of a triangle from top to bottom.
ghost use Rattle.std.specs.Prelude.{◌≡◌, ◌↔◌, ℤ, pos, ◌+ℤ◌, ◌≤ℤ◌, IsTrue, MatchOption, false};
ghost use Rattle.std.specs.Prelude.{FitsSigned};
ghost use Rattle.std.specs.Int.{w32};
ghost use Rattle.px_num.specs.declared.shape.Box2.{Box2};
ghost use Rattle.edge_walk.specs.Row.{IsBetween, IsInBox, IsRowSpan};
ghost use Rattle.edge_walk.specs.Triangle.{Corners, is_inside};
ghost use Rattle.edge_walk.specs.Walk.{AreRows, IsBounded, IsWithin, raised_column};

use crate::edge_stepper::{EdgeStepper, Ends};

/// A scan over the rows of a triangle within a box.
#[derive(Clone, Copy)]
pub struct RowScan {
    // the columns that the box and the bounding box have in common
    pub(crate) ends: Ends,
    pub(crate) first: EdgeStepper,
    pub(crate) second: EdgeStepper,
    pub(crate) third: EdgeStepper,
}

// The first and the last column of a row, plus 2^32.
#[derive(Clone, Copy)]
struct Columns {
    low: u64,
    high: u64,
}

// Returns the column whose value plus 2^32 is `raised`.
#[inline(always)]
fn column(raised: u64) -> i32
    ensures { (x : ℤ) → FitsSigned w32 x → pos raised ≡ raised_column x → result ≡ x }
{
    ((raised & 0xffff_ffff) as u32).cast_signed()
}

impl RowScan {
    // Returns the columns that are on the inner side of all three edges.
    #[inline(always)]
    fn left(&self) -> Ends
        ensures { (x : ℤ) → (IsWithin self.now.ends x
            × IsBounded self.now.first.bound (pos self.now.first.at) x
            × IsBounded self.now.second.bound (pos self.now.second.at) x
            × IsBounded self.now.third.bound (pos self.now.third.at) x) ↔ IsWithin result x }
    {
        let first = self.first.narrowed(self.ends);
        let second = self.second.narrowed(first);
        self.third.narrowed(second)
    }

    // Returns the columns of the row that are in the triangle and in the box. `low` exceeds `high` if there is none.
    #[inline(always)]
    fn columns(&self) -> Columns
        ensures { (t : Corners) (clip : Box2) (x y : ℤ) → AreRows t clip y self.now
            → (IsBetween clip.x1 clip.x2 x × IsTrue (is_inside t x y))
            ↔ IsBetween (pos result.low) (pos result.high) (raised_column x) }
    {
        let ends = self.left();
        Columns {
            low: (ends.low >> 30) + 1,
            high: ends.high >> 30,
        }
    }

    // Moves to the next row.
    #[inline(always)]
    fn step(&mut self)
        ensures { (t : Corners) (clip : Box2) (y : ℤ)
            → AreRows t clip y self.old → y ≤ℤ clip.y2 → AreRows t clip (y +ℤ pos 1) self.new }
    {
        self.first.step();
        self.second.step();
        self.third.step();
    }

    /// Returns what `Tri::row_span` returns for this row and the box, and moves to the next row. After the last row
    /// of the box, the result has no meaning.
    #[inline(always)]
    pub fn next(&mut self) -> Option<(i32, i32)>
        ensures span { (t : Corners) (clip : Box2) (y : ℤ) → AreRows t clip y self.old → y ≤ℤ clip.y2
            → MatchOption result ((x : ℤ) → IsInBox clip x y → is_inside t x y ≡ false)
            (λ span. IsRowSpan t y clip span.0 span.1) }
        ensures next { (t : Corners) (clip : Box2) (y : ℤ)
            → AreRows t clip y self.old → y ≤ℤ clip.y2 → AreRows t clip (y +ℤ pos 1) self.new }
    {
        let columns = self.columns();
        self.step();
        // The span is made first, and dropped if the row has no cell. A branch between the two cases would cost each
        // row more.
        let mut found = Some((column(columns.low), column(columns.high)));
        if columns.high < columns.low {
            found = None;
        }
        found
    }
}
