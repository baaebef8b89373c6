//! Laws on colours. Each is the contract of a function that does nothing.
ghost use Rattle.blend_dither.specs.Laws.{NeutralLaw};

/// Modulation by the colour 808080h without dither returns the texel with bit 15 cleared.
pub fn neutral_color()
    ensures { NeutralLaw }
{}
