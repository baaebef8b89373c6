// Chunks of up to sixteen cells, and the loops that draw them.

pub(crate) mod blended;
pub(crate) mod loops;
pub(crate) mod textured;
pub(crate) mod untextured;
