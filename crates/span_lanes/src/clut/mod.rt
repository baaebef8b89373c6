// CLUTs whose entries are modulated once.

pub(crate) mod clut16;
pub(crate) mod clut256;
pub(crate) mod modulated;
