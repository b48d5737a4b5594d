//! What the instructions of a plot mean, whatever its page is and wherever the pen is: what their
//! numbers set or ask for, which numbers are wrong, and what is set at the start. The instructions are
//! those of the HP-GL/2 and HP RTL Reference Guide.
#![tactic(auto)]

mod arc_parameters;
mod figure;
pub mod laws;
mod lettering;
mod palette;
mod parameters;
mod points;
mod request;
mod setting;
mod slants;

pub use arc_parameters::{arc_from, circle_from, is_chord, thousandths};
pub use figure::{Arc, Circle, Corner};
pub use palette::{FIRST_WIDTH, default_colour, default_colours, width_of_all};
pub use parameters::whole_number;
pub use points::points_moved_to;
pub use request::{Request, request_of};
pub use setting::{Corners, Rotation, Setting};
pub use slants::is_off_axis;
