// A coordinate or channel along a segment, step by step.
ghost use Rattle.std.specs.Prelude.{◌≡◌, ◌≤◌, ◌<◌, ◌+◌, ◌^◌, ◌-ℤ◌, ◌≤ℤ◌, ℕ, ℤ, pos, negsuc, unsigned_abs};
ghost use Rattle.line_walk.specs.Walk.{IsSlope, value_of};

use crate::rise::Run;

// The number of fixed-point parts in 1: enough that the error of the steps is never visible, and few enough that a
// step fits in 32 bits.
const PARTS: i32 = 0x20_0000;

// Half of `PARTS`.
const HALF: i64 = 0x10_0000;

// The fixed-point value plus a half, and what each step adds to it. The unit is 1 / `PARTS`.
#[derive(Clone, Copy)]
pub(crate) struct Slope {
    place: i64,
    step: i32,
}

// Returns the slope at the first end of a run of `n` steps. `n` is 1 to 1023, and the ends are at most 1023 apart.
#[inline(always)]
pub(crate) fn first_slope(run: &Run, n: u32) -> Slope
    requires near { unsigned_abs (run.now.from -ℤ run.now.to) ≤ 1023 }
    requires some { 0 < n }
    requires steps { n ≤ 1023 }
    ensures { IsSlope run.now.from run.now.to n 0 result }
{
    let step = ((run.to - run.from) * PARTS).div_euclid(n as i32) + 1;
    Slope {
        place: run.from as i64 * PARTS as i64 + HALF,
        step,
    }
}

// Returns the slope after one more step.
#[inline(always)]
pub(crate) fn next_slope(slope: Slope) -> Slope
    requires { unsigned_abs slope.place < 2 ^ 60 }
    ensures { (from to : ℤ) → (n k : ℕ) → IsSlope from to n k slope → IsSlope from to n (k + 1) result }
{
    Slope {
        place: slope.place + slope.step as i64,
        ..slope
    }
}

// Returns the current value, rounded down to an integer.
#[inline(always)]
pub(crate) fn value_of(slope: &Slope) -> i32
    requires low { negsuc 2147483647 ≤ℤ value_of slope.now }
    requires high { value_of slope.now ≤ℤ pos 2147483647 }
    ensures { result ≡ value_of slope.now }
{
    (slope.place >> 21) as i32
}
