//! What a plot draws on a page: its strokes, and what is noted on it.
#![tactic(auto)]

mod axes;
mod curve;
mod drawn;
mod fault;
mod inks;
mod item_notes;
pub mod laws;
mod note;
mod note_source;
mod notes;
mod noting;
mod place;
mod plot;
mod plotter;
mod state;
mod turn;
mod window;

pub use carousel::Carousel;
pub use drawn::{Drawn, draw_plot, draw_plot_with};
pub use exact::Spot;
pub use fault::PlotFault;
pub use item_notes::ItemNotes;
pub use note::{Note, NoteKind};
pub use note_source::NoteSource;
pub use notes::Notes;
pub use noting::{count_notes, noted_kind};
pub use plot::{Plot, draw};
pub use plot_arc::{chord_point, sine};
pub use plot_page::{Colour, MOST_STROKES, Page, PageFault, Stroke, Window};
pub use plotter::outlines::Outline;
pub use plotter::{Plotter, Stop};
pub use state::{Frame, Position, State};
pub use stick_font::{GridStroke, glyph};
