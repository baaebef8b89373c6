// A coordinate or channel along a segment.
ghost use Rattle.std.specs.Prelude.{◌≡◌, ◌≤◌, ◌<◌, ◌+◌, ◌*◌, ◌/◌, ◌-ℤ◌, unsigned_abs};
ghost use Rattle.line_walk.specs.Line.{rise, along, IsAmid};

// The values at both ends of a segment.
#[derive(Clone, Copy)]
pub(crate) struct Run {
    pub(crate) from: i32,
    pub(crate) to: i32,
}

// Returns `(2 * k * d + start) / (2 * n)`, rounded down. `start` is at most `n`.
fn quotient(d: u32, n: u32, k: u32, start: u32) -> u32
    requires near { d ≤ 1023 }
    requires some { 0 < n }
    requires steps { n ≤ 1023 }
    requires k { k ≤ n }
    requires start { start ≤ n }
    ensures { result ≡ (2 * k * d + start) / (2 * n) }
{
    (2 * k * d + start) / (2 * n)
}

// As `quotient`, without a division if `d` equals `n`.
fn distance(d: u32, n: u32, k: u32, start: u32) -> u32
    requires near { d ≤ 1023 }
    requires some { 0 < n }
    requires steps { n ≤ 1023 }
    requires k { k ≤ n }
    requires start { start ≤ n }
    ensures { result ≡ (2 * k * d + start) / (2 * n) }
{
    if d == n { k } else { quotient(d, n, k, start) }
}

// Returns the change of a value at step `k` of `n`, if it changes by `d` in `n` steps. Rounds to the nearest integer,
// and upward from the middle.
fn rise(d: i64, n: u32, k: u32) -> i64
    requires near { unsigned_abs d ≤ 1023 }
    requires some { 0 < n }
    requires steps { n ≤ 1023 }
    requires k { k ≤ n }
    ensures { result ≡ rise d n k }
{
    let far = d.unsigned_abs() as u32;
    if d >= 0 {
        distance(far, n, k, n) as i64
    } else {
        0 - distance(far, n, k, n - 1) as i64
    }
}

// Returns the value at step `k` of `n`. It is between the two ends. If `n` is 0, returns the value at the first end.
pub(crate) fn along(run: &Run, n: u32, k: u32) -> i32
    requires near { unsigned_abs (run.now.from -ℤ run.now.to) ≤ 1023 }
    requires steps { n ≤ 1023 }
    requires k { k ≤ n }
    ensures value { result ≡ along run.now.from run.now.to n k }
    ensures amid { IsAmid run.now.from run.now.to result }
{
    if n == 0 {
        return run.from;
    }
    let d = run.to as i64 - run.from as i64;
    (run.from as i64 + rise(d, n, k)) as i32
}
