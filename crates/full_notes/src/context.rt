//! What decides how items are read, and what is noted on them.
ghost use Rattle.std.specs.Prelude.{◌≡◌};
ghost use Rattle.full_settings.specs.FurtherRequests.{IsFurtherRequest};
ghost use Rattle.full_notes.specs.Contexts.{first_context};
ghost use Rattle.full_notes.specs.Notes as notes;

use full_settings::{ColourRanges, FurtherRequest, PolygonStep, WidthSetting};
use hpgl_text::Instruction;
use std::marker::Model;

/// What has been set before an item that decides how it is read, and what is noted on it.
#[derive(Clone, Copy, Debug)]
pub struct Context {
    /// Whether widths are in percent.
    pub in_percent: bool,
    pub ranges: ColourRanges,
    /// Whether polygon mode is on.
    pub in_polygon: bool,
    /// Whether chords have the usual angle, whatever angle is named.
    pub usual_chords: bool,
}

impl Model for Context {
    ghost use Rattle.full_settings.specs.ColourRanges.{IsColourRanges};
    ghost use Rattle.full_notes.specs.Contexts.{Context};

    ghost Value = { Context };

    ghost view = { λ c. record {
      in_percent = c.in_percent;
      ranges = c.ranges;
      in_polygon = c.in_polygon;
      usual_chords = c.usual_chords;
    } };

    ghost invariant = { λ c. IsColourRanges c.ranges };

    ghost inverse = { λ c. record {
      in_percent = c.in_percent;
      ranges = c.ranges;
      in_polygon = c.in_polygon;
      usual_chords = c.usual_chords;
    } };
}

impl Context {
    /// At the start, and after IN and BP.
    pub fn first() -> Context
        ensures { result ≡ first_context }
    {
        Context {
            in_percent: false,
            ranges: ColourRanges::usual(),
            in_polygon: false,
            usual_chords: false,
        }
    }

    /// A further instruction that asks for this becomes part of what has been set.
    pub fn pass_request(&mut self, request: &FurtherRequest)
        requires { IsFurtherRequest request.now }
        ensures { self.new ≡ notes.request_after self.old request.now }
    {
        match request {
            FurtherRequest::Width(setting) => {
                self.in_percent = unit_after(*setting, self.in_percent);
            }
            FurtherRequest::Colours(ranges) => self.ranges = *ranges,
            FurtherRequest::Polygon(step) => {
                self.in_polygon = is_on_after(*step, self.in_polygon);
            }
            FurtherRequest::Chords(usual) => self.usual_chords = *usual,
            FurtherRequest::Begin => *self = Context::first(),
            _ => {}
        }
    }

    /// An instruction of core becomes part of what has been set.
    #[inline(always)]
    pub fn pass_instruction(&mut self, instruction: Instruction)
        ensures { self.new ≡ notes.params_after self.old instruction }
    {
        match instruction {
            Instruction::Initialize => *self = Context::first(),
            Instruction::DefaultValues => {
                self.in_polygon = false;
                self.usual_chords = false;
            }
            _ => {}
        }
    }
}

// After a PM that asks for this.
fn is_on_after(step: PolygonStep, in_polygon: bool) -> bool
    ensures { result ≡ notes.is_on_after step in_polygon }
{
    match step {
        PolygonStep::Begin => true,
        PolygonStep::Close => in_polygon,
        PolygonStep::End => false,
    }
}

// After a WU that asks for this.
fn unit_after(setting: WidthSetting, in_percent: bool) -> bool
    ensures { result ≡ notes.unit_after in_percent setting }
{
    match setting {
        WidthSetting::Millimetres => false,
        WidthSetting::PercentOfAll(_) => true,
        WidthSetting::Percent(..) | WidthSetting::Thickness(_) => in_percent,
    }
}
