//! Laws of the profile full, over the definitions only.
ghost use Rattle.full_plot.specs.Laws.{BadItemsDoNothing, CoreAcceptsNoMore, CoreRunsAsInCore, CoreDrawsAsInCore, CoreNotedAsInCore};
ghost use Rattle.full_plot.specs.Laws.{CoreDrawsAsInCoreWith, InitializeRestarts, LabelsAreInOrder, NotesAreTold};
ghost use Rattle.full_plot.specs.Laws.{PolygonModeDrawsNothing, SheetsJoin};

/// Items of core leave in the profile full what they leave in core, on one sheet, with the line style
/// of the start, or are refused as there if places lay as far as a number leads.
pub fn core_runs_as_in_core()
    ensures { CoreRunsAsInCore }
{}

/// A plot of items of core has its strokes of core in the profile full, on one sheet, and the refusal that it would have
/// in core if places lay as far as a number leads.
pub fn core_draws_as_in_core()
    ensures { CoreDrawsAsInCore }
{}

/// So it has with the same pens of a carousel in both, if texts are read by a set of characters that has ASCII,
/// or as UTF-8.
pub fn core_draws_as_in_core_with()
    ensures { CoreDrawsAsInCoreWith }
{}

/// A plot that core accepts has no such refusal.
pub fn core_accepts_no_more()
    ensures { CoreAcceptsNoMore }
{}

/// What is noted on items of core in the profile full is what is noted in core.
pub fn core_noted_as_in_core()
    ensures { CoreNotedAsInCore }
{}

/// An item that is noted as bad leaves the plotter as it was, but for moves and curves before the wrong number.
pub fn bad_items_do_nothing()
    ensures { BadItemsDoNothing }
{}

/// In polygon mode no item makes a stroke.
pub fn polygon_mode_draws_nothing()
    ensures { PolygonModeDrawsNothing }
{}

/// IN and BP leave the plotter as at the start, with the strokes and the sheets so far.
pub fn initialize_restarts()
    ensures { InitializeRestarts }
{}

/// After each item that is carried out, the plotter has the context that notes have: the steps of an item do not change it.
pub fn notes_are_told()
    ensures { NotesAreTold }
{}

/// The strokes of the sheets, in order, are those of the plot, and a later sheet has none.
pub fn sheets_join()
    ensures { SheetsJoin }
{}

/// The labels of a plot are in order, and no two of them have the same stroke.
pub fn labels_are_in_order()
    ensures { LabelsAreInOrder }
{}
