//! Profiles: which instructions are read.

/// Which instructions of a plot are read.
#[derive(Clone, Copy, Debug, PartialEq, Eq)]
pub enum Profile {
    /// IN, DF, IP, SC, RO, IW, SP, PW, PC, PU, PD, PA, PR, PE, EA, ER, CI, AA, AR, SI, DI, LB and DT. All
    /// other instructions are skipped.
    Core,
    /// Those of the core and the further ones: line types, widths, labels, sets of characters, fonts,
    /// symbols, polygons, fills, curves and sheets. The other instructions of HP-GL/2 and of old HP-GL are
    /// known, but have no effect. Any other is skipped.
    Full,
}
