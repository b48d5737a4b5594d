//! How polygons are filled.
ghost use Rattle.std.specs.Prelude.{◌≡◌};
ghost use Rattle.full_settings.specs.FillParameters as fills;
ghost use Rattle.full_settings.specs.FillParameters.{IsFillSetting, IsFillStyle};

/// What FT (Fill Type) asks for.
#[derive(Clone, Copy, Debug)]
pub enum FillSetting {
    /// Types 1 and 2: solid.
    Solid,
    /// Types 11, 21 and 22: a pattern, which is not drawn. Fills are solid then.
    Pattern,
    /// Types 3 and 4: hatching, or cross-hatching. The spacing of its lines is in millionths of the current
    /// unit, up to 2^55, their angle in thousandths of a degree, up to 359,999; `None` stays as it was.
    Hatched(bool, Option<u64>, Option<u32>),
    /// Type 10: shading, by a level in millionths of a percent, up to 100,000,000; `None` stays as it was.
    Shaded(Option<u32>),
}

/// How the inside of a polygon is drawn.
#[derive(Clone, Copy, Debug, PartialEq, Eq)]
pub enum FillKind {
    Solid,
    Hatched,
    CrossHatched,
    Shaded,
}

/// What FT has set.
#[derive(Clone, Copy, Debug)]
pub struct FillStyle {
    pub kind: FillKind,
    /// The spacing of the lines of hatching, in millionths of the current unit, or 0 for the usual one.
    pub spacing: u64,
    /// Their angle, in thousandths of a degree.
    pub angle: u32,
    /// The level of shading, in millionths of a percent.
    pub level: u32,
}

impl FillStyle {
    /// What is set at the start, and by IN and DF.
    pub fn usual() -> FillStyle
        ensures value { result ≡ fills.usual_fill }
        ensures sound { IsFillStyle result }
    {
        FillStyle {
            kind: FillKind::Solid,
            spacing: 0,
            angle: 0,
            level: 50_000_000,
        }
    }

    /// After an FT that asks for this.
    pub fn with(self, setting: FillSetting) -> FillStyle
        requires style { IsFillStyle self }
        requires setting { IsFillSetting setting }
        ensures value { result ≡ fills.fill_with setting self }
        ensures sound { IsFillStyle result }
    {
        match setting {
            FillSetting::Solid | FillSetting::Pattern => FillStyle {
                kind: FillKind::Solid,
                ..self
            },
            FillSetting::Hatched(is_crossed, spacing, angle) => FillStyle {
                kind: hatched_kind(is_crossed),
                spacing: spacing.unwrap_or(self.spacing),
                angle: angle.unwrap_or(self.angle),
                level: self.level,
            },
            FillSetting::Shaded(level) => FillStyle {
                kind: FillKind::Shaded,
                level: level.unwrap_or(self.level),
                ..self
            },
        }
    }
}

fn hatched_kind(is_crossed: bool) -> FillKind
    ensures { result ≡ fills.hatched_kind is_crossed }
{
    if is_crossed {
        FillKind::CrossHatched
    } else {
        FillKind::Hatched
    }
}
