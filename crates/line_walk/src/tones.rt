// The colour along a segment, step by step.
ghost use Rattle.std.specs.Prelude.{◌≡◌, ◌≤◌, ◌<◌, ◌+◌, ◌^◌, ℕ, pos, max, unsigned_abs};
ghost use Rattle.line_walk.specs.Line.{color_along};
ghost use Rattle.line_walk.specs.Walk.{AreBytes, AreTones, IsByte, IsSlope, tint_of, value_of};

use crate::rise::Run;
use crate::slope::{Slope, first_slope, next_slope, value_of};

// The slopes of the three channels of a colour.
#[derive(Clone, Copy)]
pub(crate) struct Tones {
    red: Slope,
    green: Slope,
    blue: Slope,
}

// Returns the slope of one channel at the first end.
#[inline(always)]
fn first_tone(from: u8, to: u8, n: u32) -> Slope
    requires some { 0 < n }
    requires steps { n ≤ 1023 }
    ensures { IsSlope (pos from) (pos to) n 0 result }
{
    let run = Run {
        from: from as i32,
        to: to as i32,
    };
    first_slope(&run, n)
}

// Returns the slopes of all channels at the first end.
#[inline(always)]
pub(crate) fn first_tones(from: u32, to: u32, n: u32) -> Tones
    requires some { 0 < n }
    requires steps { n ≤ 1023 }
    ensures { AreTones from to n 0 result }
{
    Tones {
        red: first_tone((from & 0xff) as u8, (to & 0xff) as u8, n),
        green: first_tone((from >> 8 & 0xff) as u8, (to >> 8 & 0xff) as u8, n),
        blue: first_tone((from >> 16 & 0xff) as u8, (to >> 16 & 0xff) as u8, n),
    }
}

// Returns the slopes after one more step.
#[inline(always)]
pub(crate) fn next_tones(tones: Tones) -> Tones
    requires { AreBytes tones }
    ensures { (from to n k : ℕ) → AreTones from to n k tones → AreTones from to n (k + 1) result }
{
    Tones {
        red: next_slope(tones.red),
        green: next_slope(tones.green),
        blue: next_slope(tones.blue),
    }
}

// Returns the current value of one channel.
#[inline(always)]
fn tone_of(slope: &Slope) -> u32
    requires { IsByte slope.now }
    ensures value { result ≡ unsigned_abs (value_of slope.now) }
    ensures byte { result < 256 }
{
    value_of(slope) as u32
}

// Returns the current colour.
#[inline(always)]
fn tint_of(tones: &Tones) -> u32
    requires { AreBytes tones.now }
    ensures value { result ≡ tint_of tones.now }
    ensures channels { result < 2 ^ 24 }
{
    let red = tone_of(&tones.red);
    let green = tone_of(&tones.green);
    let blue = tone_of(&tones.blue);
    red | green << 8 | blue << 16
}

// Returns the current colour between `from` and `to`, without computation if they are equal.
#[inline(always)]
pub(crate) fn tint_between(from: u32, to: u32, tones: &Tones) -> u32
    requires { AreBytes tones.now }
    ensures value { (n k : ℕ) → n ≤ 1023 → k ≤ n → AreTones from to (max 1 n) k tones.now
        → result ≡ color_along from to n k }
    ensures channels { result < 2 ^ 24 }
{
    if from == to {
        from % 0x100_0000
    } else {
        tint_of(tones)
    }
}
