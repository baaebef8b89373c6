// Exact division by an area through multiplication with its reciprocal.
ghost use Rattle.std.specs.Prelude.{◌≡◌, ◌*◌, ◌/◌, ◌<◌, ◌≤◌};

/// A doubled area and its reciprocal: `2^56 / area` rounded down, plus 1.
///
/// The sum of an attribute at a cell is that of its values at the three vertices, each times the edge value opposite
/// the vertex. It is at most 255 times the area. The product of such a sum and the reciprocal exceeds 2^56 times the
/// exact quotient by less than 2^56 / area. So the top 8 bits of the product are the quotient rounded down.
#[derive(Clone, Copy)]
pub struct Divisor {
    area: u32,
    pub(crate) reciprocal: u64,
}

impl Divisor {
    ghost use Rattle.edge_walk.specs.Divisor.{IsDivisor, divisor_of};

    pub(crate) fn new(area: u32) -> Divisor
        requires { 0 < area }
        ensures { result ≡ divisor_of area }
    {
        Divisor {
            area,
            reciprocal: (1 << 56) / area as u64 + 1,
        }
    }

    // Returns the area times `byte` times the reciprocal.
    pub(crate) fn times(&self, byte: u8) -> u64
        requires { IsDivisor self.now }
        ensures { result ≡ self.now.area * byte * self.now.reciprocal }
    {
        self.area as u64 * byte as u64 * self.reciprocal
    }

    // Returns `sum / area`, rounded down. `sum` is at most 255 times the area.
    pub(crate) fn quotient(&self, sum: u32) -> u8
        requires divisor { IsDivisor self.now }
        requires sum { sum ≤ 255 * self.now.area }
        ensures { result ≡ sum / self.now.area }
    {
        (sum as u64 * self.reciprocal >> 56) as u8
    }
}
