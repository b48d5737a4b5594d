//! What TR and SV ask for.

/// What the instructions ask for that say how strokes show.
#[derive(Clone, Copy, Debug)]
pub enum InkSetting {
    /// TR (Transparency Mode): whether strokes and areas in white are not there.
    HidesWhite(bool),
    /// SV (Screened Vectors) by shading, or off: how much of a pen's colour is left in strokes, in millionths
    /// of a percent, up to 100,000,000; `None` for all of it, where nothing is screened.
    Screen(Option<u32>),
    /// SV by a pattern, which is not drawn: strokes are not screened then.
    OtherScreen,
}
