//! Laws on texture windows. Each is the contract of a function that does nothing.
ghost use Rattle.texture_page.specs.Laws.{OpenWindowLaw};

/// A window with mask 0 leaves every coordinate unchanged, whatever its offset.
pub fn open_window()
    ensures { OpenWindowLaw }
{}
