// The number of rows of video memory.
ghost use Rattle.std.specs.Prelude.{◌≡◌};
ghost use Rattle.px_num.specs.Height.{IsHeight, height_of_profile};

/// The number of rows of the console's video memory.
pub const SHORT_HEIGHT: u16 = 512;

/// The number of rows of video memory in the tall profile.
pub const TALL_HEIGHT: u16 = 1024;

/// Returns the number of rows of video memory: 1024 if `tall`, else 512.
pub fn height_of_profile(tall: bool) -> u16
    ensures value { result ≡ height_of_profile tall }
    ensures is { IsHeight result }
{
    if tall { TALL_HEIGHT } else { SHORT_HEIGHT }
}
