//! What holds of the cut of a plot in the profile full. The contracts are laws.
ghost use Rattle.full_text.specs.Laws.{WithoutEscapes, ItemsAreApart, EscapesAreTaken, ItemsAreFew};

use hpgl_text::laws::one_cut;

/// A plot without ESC is cut as if there were no escapes.
pub fn plots_without_escapes()
    ensures { WithoutEscapes }
{
    one_cut();
}

/// Items are in the plot's order, and none begins within an escape: its data are never read as instructions.
pub fn items_are_apart()
    ensures { ItemsAreApart }
{}

/// An escape that is an item has its bytes of the plot.
pub fn escapes_are_taken()
    ensures { EscapesAreTaken }
{}

/// A plot has at most as many items as bytes.
pub fn items_are_few()
    ensures { ItemsAreFew }
{
    one_cut();
}
