//! What the further instructions do.
ghost use Rattle.std.specs.Prelude.{◌≡◌, ◌≤◌, IfOk, Some};
ghost use Rattle.full_settings.specs.FillParameters.{IsFillSetting};
ghost use Rattle.full_settings.specs.FurtherRequests.{IsFurtherRequest};
ghost use Rattle.full_settings.specs.LineStyles.{IsLineSetting};
ghost use Rattle.full_settings.specs.RelativePoints.{IsRelativePoints};
ghost use Rattle.full_settings.specs.TickParameters.{IsTickLength};
ghost use Rattle.full_notes.specs.Contexts.{request_in};
ghost use Rattle.full_notes.specs.Notes.{request_noted};
ghost use Rattle.full_plot.specs.Items.{request_steps};
ghost use Rattle.full_plot.specs.Machine as machine;
ghost use Rattle.full_plot.specs.ContextsAfter.{after_request};
ghost use Rattle.full_plot.specs.Machine.{seen, full_step, run, Runs, Style, TickBy, PointsBy, FillBy, AnchorBy};

use crate::plotter::FullPlotter;
use exact::Spot;
use full_notes::{noted_request, request_read};
use full_settings::{
    Anchor, FillSetting, FurtherRequest, LineSetting, RelativePoints, TickLength, points_of,
};
use hpgl_plot::{NoteKind, Stop};
use hpgl_text::{Further, Numbers};
use plot_page::Page;
use plot_settings::{Rotation, Setting};

impl FullPlotter {
    /// Carries out a further instruction, and answers what is noted on it.
    pub fn obey_further(
        &mut self,
        further: Further,
        numbers: &Numbers<'_>,
    ) -> Result<Option<NoteKind>, Stop>
        ensures runs { let request = request_in (seen self.old).context further numbers.now in
            Runs (run (after_request request (seen self.old)) (request_steps request numbers.now)) (seen self.new) result }
        ensures noted { let request = request_in (seen self.old).context further numbers.now in
            IfOk result (λ noted. noted ≡ request_noted request numbers.now) }
    {
        let request = request_read(further, numbers, &self.context);
        let noted = noted_request(&request, numbers);
        self.context.pass_request(&request);
        self.do_further(request, numbers)?;
        Ok(noted)
    }

    // Does what a further instruction asks for by its numbers.
    fn do_further(&mut self, request: FurtherRequest, numbers: &Numbers<'_>) -> Result<(), Stop>
        requires { IsFurtherRequest request }
        ensures { Runs (run (seen self.old) (request_steps request numbers.now)) (seen self.new) result }
    {
        match request {
            FurtherRequest::Line(setting) => {
                self.set_style(setting);
                Ok(())
            }
            FurtherRequest::Width(setting) => {
                self.widen(setting);
                Ok(())
            }
            FurtherRequest::Letter(setting) => {
                self.letter(setting);
                Ok(())
            }
            FurtherRequest::Ink(setting) => {
                self.set_ink(setting);
                Ok(())
            }
            FurtherRequest::Characters(setting) => {
                self.characters.set(setting);
                Ok(())
            }
            FurtherRequest::Ticks(length) => {
                self.set_ticks(length);
                Ok(())
            }
            FurtherRequest::Points(points) => {
                self.set_points(points);
                Ok(())
            }
            FurtherRequest::Begin => {
                self.set(Setting::Start);
                self.restart();
                Ok(())
            }
            FurtherRequest::Move(way) => {
                self.place(way)?;
                Ok(())
            }
            FurtherRequest::Tick(is_upright) => {
                self.tick(is_upright)?;
                Ok(())
            }
            FurtherRequest::Arc(is_relative, points) => {
                self.arc_through(is_relative, points)?;
                Ok(())
            }
            FurtherRequest::Curves(is_relative) => self.draw_curves(is_relative, numbers),
            FurtherRequest::UserCharacter => self.draw_character(numbers),
            FurtherRequest::Polygon(step) => self.set_polygon(step),
            FurtherRequest::EdgePolygon => self.edge_polygon(),
            FurtherRequest::FillPolygon(by_winding) => self.fill_polygon(by_winding),
            FurtherRequest::Rectangle(is_relative, corner) => {
                self.fill_rectangle(is_relative, corner)
            }
            FurtherRequest::EdgeWedge(wedge) => self.edge_wedge(wedge),
            FurtherRequest::FillWedge(wedge) => self.fill_wedge(wedge),
            FurtherRequest::Anchor(anchor) => self.set_anchor(anchor),
            FurtherRequest::Fill(setting) => {
                self.set_fill(setting);
                Ok(())
            }
            FurtherRequest::Print => {
                self.print()?;
                Ok(())
            }
            FurtherRequest::EndSheet => self.end_sheet(),
            FurtherRequest::Colours(_) | FurtherRequest::Chords(_) => Ok(()),
            FurtherRequest::Wrong => Ok(()),
        }
    }

    // Sets what an LT or a UL asks for, and ends the run.
    fn set_style(&mut self, setting: LineSetting)
        requires { IsLineSetting setting }
        ensures { full_step (seen self.old) (Style setting) ≡ Some (seen self.new) }
    {
        self.style.set(setting);
        self.run = None;
    }

    // Sets the length of ticks by TL.
    fn set_ticks(&mut self, length: TickLength)
        requires { IsTickLength length }
        ensures { full_step (seen self.old) (TickBy length) ≡ Some (seen self.new) }
    {
        self.writing.set_ticks(length);
    }

    // Sets how polygons are filled, by FT.
    fn set_fill(&mut self, setting: FillSetting)
        requires { IsFillSetting setting }
        ensures { full_step (seen self.old) (FillBy setting) ≡ Some (seen self.new) }
    {
        self.filling.fill = self.filling.fill.with(setting);
    }

    // Sets the place that a line of hatching goes through, by AC.
    fn set_anchor(&mut self, anchor: Anchor) -> Result<(), Stop>
        ensures { Runs (full_step (seen self.old) (AnchorBy anchor)) (seen self.new) result }
    {
        match anchor {
            Anchor::PageOrigin => self.filling.anchor = Spot { x: 0, y: 0 },
            Anchor::At(point) => {
                let pen = self.pen_at(false, point)?;
                self.filling.anchor = pen.place;
            }
        }
        Ok(())
    }

    // Sets P1 and P2 by IR, and widths in percent of them.
    fn set_points(&mut self, points: RelativePoints)
        requires { IsRelativePoints points }
        ensures { full_step (seen self.old) (PointsBy points) ≡ Some (seen self.new) }
    {
        let page = &self.plotter.page;
        let rotation = self.plotter.state.frame.rotation;
        let width = page_width(page, rotation);
        let height = page_height(page, rotation);
        let setting = points_of(points, width, height, page.left, page.below);
        self.plotter.set(setting);
        self.rewiden();
    }
}

// The width of the page as RO turns it.
fn page_width(page: &Page, rotation: Rotation) -> u32
    ensures value { result ≡ machine.page_width page.now rotation }
    ensures most { result ≤ 524288 }
{
    match rotation {
        Rotation::None | Rotation::Half => page.width,
        Rotation::Quarter | Rotation::ThreeQuarters => page.height,
    }
}

// The height of the page as RO turns it.
fn page_height(page: &Page, rotation: Rotation) -> u32
    ensures value { result ≡ machine.page_height page.now rotation }
    ensures most { result ≤ 524288 }
{
    match rotation {
        Rotation::None | Rotation::Half => page.height,
        Rotation::Quarter | Rotation::ThreeQuarters => page.width,
    }
}
