// How the texels of a chunk are read.

pub(crate) mod sampler;
pub(crate) mod texel_run;
