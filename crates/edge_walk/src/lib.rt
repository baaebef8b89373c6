//! Triangles: which cells a triangle draws in each row, and the colour and texture coordinates of each cell.
//!
//! The coordinates of vertices include the drawing offset. A cell is inside if it is on the inner side of all three
//! edges. Traverse each edge with the triangle to its right: cells exactly on the edge count as on its inner side
//! only if it goes up, or level to the right. So two triangles with a common edge draw none of its cells twice.
#![tactic(auto)]

mod attribute_setup;
mod attributes;
mod divisor;
mod edge;
mod edge_stepper;
mod extent;
mod line;
mod oriented;
mod plane;
mod plane_ramp;
mod ramp;
mod row_scan;
mod slope;
mod steps;
mod triangle;
mod weights;

pub use attribute_setup::AttributeSetup;
pub use divisor::Divisor;
pub use line::RowLine;
pub use plane::Plane;
pub use plane_ramp::PlaneRamp;
pub use row_scan::RowScan;
pub use triangle::Tri;
