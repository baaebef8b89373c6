// What the attributes of a triangle share.
ghost use Rattle.edge_walk.specs.Divisor.{IsDivisor};
ghost use Rattle.edge_walk.specs.Oriented.{AreAboveLeast, corners_of};

use crate::divisor::Divisor;
use crate::oriented::Oriented;
use crate::plane::Plane;

/// A triangle in a fixed orientation, and the divisor of the sums of its attributes. The planes of all its attributes
/// are computed from these.
#[derive(Clone, Copy)]
pub struct AttributeSetup {
    pub(crate) t: Oriented,
    pub(crate) divisor: Divisor,
    ghost divisor_is: { IsDivisor divisor },
    ghost above: { AreAboveLeast (corners_of t) },
}

impl AttributeSetup {
    ghost use Rattle.std.specs.Prelude.{◌≤◌};
    ghost use Rattle.edge_walk.specs.AttributeSetup.{IsAttributeSetup};
    ghost use Rattle.edge_walk.specs.Plane.{IsPlane};
    ghost use Rattle.edge_walk.specs.Triangle.{Corners};

    /// Returns attribute `which` (0 to 4: red, green, blue, u, v) over the whole triangle.
    #[inline(always)]
    pub fn plane(&self, which: u8) -> Plane
        requires { which ≤ 4 }
        ensures { (tri : Corners) → IsAttributeSetup tri self.now → IsPlane tri which result }
    {
        Plane::of(&self.t, which, &self.divisor)
    }
}
