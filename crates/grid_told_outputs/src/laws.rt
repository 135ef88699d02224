//! Laws of lines, each the contract of a function that does nothing.

ghost use Rattle.grid_told_outputs.specs.Laws.{HvdcIsReadBack, HvdcIsTold, ScreenIsReadBack, ScreenIsTold};

/// The lines of `hvdc` are read back, and tell how many commands there were and how many of them were refused, the
/// first refused step, and each live variant, and of each bus its name and its components.
pub fn hvdc_is_told()
    ensures read { HvdcIsReadBack }
    ensures told { HvdcIsTold }
{}

/// The lines of `screen` are read back, and tell how many commands there were and how many of them were refused, the
/// first refused step, and the place, the name and the finding of each contingency that is told, with how many are left
/// out; or that no live variant has the name.
pub fn screen_is_told()
    ensures read { ScreenIsReadBack }
    ensures told { ScreenIsTold }
{}
