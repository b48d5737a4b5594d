//! What holds of the colours of images. The functions do nothing; their contracts are laws.
ghost use Rattle.image_colours.specs.Laws.{PlanesHoldTheirWidth, DotsHaveColours, IndexesHaveEntries, ZerosAreIndexZero};
ghost use Rattle.image_colours.specs.Laws.{InksAreWhiteLess, SettingChangesOneEntry, DotsDependOnTheirBits};

/// The bytes of a plane are the least that have the dots of its width.
pub fn planes_hold_their_width()
    ensures { PlanesHoldTheirWidth }
{}

/// Each dot has a colour, of any bytes, and by any palette that was set.
pub fn dots_have_colours()
    ensures { DotsHaveColours }
{}

/// Each index has its entry in the palette.
pub fn indexes_have_entries()
    ensures { IndexesHaveEntries }
{}

/// In a row of zeros each dot has index 0.
pub fn zeros_are_index_zero()
    ensures { ZerosAreIndexZero }
{}

/// With inks a colour is white less that of the same parts of light.
pub fn inks_are_white_less()
    ensures { InksAreWhiteLess }
{}

/// Setting an entry of a palette changes no other, and none of a fixed one.
pub fn setting_changes_one_entry()
    ensures { SettingChangesOneEntry }
{}

/// The colour of a dot depends only on what the planes have at its column.
pub fn dots_depend_on_their_bits()
    ensures { DotsDependOnTheirBits }
{}
