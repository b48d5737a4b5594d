//! What holds of sines, of the ends of chords and of turns.
ghost use Rattle.plot_arc.specs.Laws.{SineSymmetries, ChordsAreRounded, WholeTurnsLeadBack, LastTurnIsSweep};
ghost use Rattle.plot_arc.specs.SineBounds.{SinesAreNearest};

/// Each sine of whole degrees in the table is the number of ten-thousandths that is nearest to the
/// sine.
pub fn sines_are_nearest()
    ensures { SinesAreNearest }
{}

/// The sine has a period of 360 degrees, is odd, and is symmetric about 90 degrees.
pub fn sine_symmetries()
    ensures { SineSymmetries }
{}

/// Each coordinate of a chord's end lies within one half of the vector turned exactly by the
/// table's sine and cosine, and a half is rounded upward.
pub fn chords_are_rounded()
    ensures { ChordsAreRounded }
{}

/// A turn by 0, or by whole turns in either direction, leads back to the point itself.
pub fn whole_turns_lead_back()
    ensures { WholeTurnsLeadBack }
{}

/// The last turn of an arc is its sweep, and those before it are whole chords within the sweep.
pub fn last_turn_is_sweep()
    ensures { LastTurnIsSweep }
{}
