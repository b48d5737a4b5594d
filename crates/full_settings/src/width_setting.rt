//! What WU, PT and a PW in percent ask for.

/// What WU (Pen Width Unit Selection), PW (Pen Width) in percent and PT (Pen Thickness, in old HP-GL)
/// ask for. Percentages are of the distance from P1 to P2, in millionths.
#[derive(Clone, Copy, Debug, PartialEq, Eq)]
pub enum WidthSetting {
    /// WU0: widths are in millimetres, and all pens get the usual one, 0.35 mm.
    Millimetres,
    /// WU1, and PW without a pen: the percentage of all pens.
    PercentOfAll(u32),
    /// PW with a pen, 0 to 255: its percentage.
    Percent(u8, u32),
    /// PT: the width of the selected pen in grains of 1/16 plotter unit.
    Thickness(u32),
}
