//! What the further instructions of the profile full ask for by their numbers, and what they set: line types,
//! widths of pens, sets of characters and fonts, letters of labels, ticks, P1 and P2, ranges of colours,
//! curves, polygons, fills, and how strokes show.
#![tactic(auto)]

mod character_moves;
mod character_parameters;
mod character_setting;
mod characters;
mod colour_parameters;
mod colour_range;
mod curve_parameters;
mod fill_parameters;
mod fill_setting;
mod font;
mod heading;
mod ink_parameters;
mod ink_setting;
mod letter_parameters;
mod letter_setting;
mod letter_size;
mod letters;
mod line_parameters;
mod line_setting;
mod line_style;
mod page_points;
mod percentages;
mod points;
mod polygon_parameters;
mod polygon_setting;
mod requests;
mod tick_length;
mod tick_parameters;
mod user_moves;
mod width_parameters;
mod width_setting;
mod width_table;

pub use character_moves::{CharacterMove, character_move};
pub use character_parameters::{font_choice, set_choice};
pub use character_setting::{CharacterSetting, FontSetting};
pub use characters::Characters;
pub use colour_parameters::{colour_in, colour_ranges};
pub use colour_range::{ColourRange, ColourRanges};
pub use curve_parameters::{arc_points, are_curves, next_curve};
pub use fill_parameters::fill_type_setting;
pub use fill_setting::{FillKind, FillSetting, FillStyle};
pub use font::Font;
pub use heading::Heading;
pub use ink_setting::InkSetting;
pub use letter_parameters::direction_setting;
pub use letter_setting::LetterSetting;
pub use letter_size::LetterSize;
pub use letters::{Letters, grains_of_share};
pub use line_parameters::{line_type_setting, user_line_setting};
pub use line_setting::{LineKind, LineSetting, PatternLength};
pub use line_style::{LineStyle, diagonal_by, distance};
pub use page_points::{RelativePoints, points_of, relative_points};
pub use points::{ArcPoints, CurvePoints, Point};
pub use polygon_parameters::{anchor, choice, fill_corner, polygon_step, wedge};
pub use polygon_setting::{Anchor, PolygonStep, Wedge};
pub use requests::{FurtherRequest, further_request, request_without_chord};
pub use tick_length::TickLength;
pub use tick_parameters::tick_setting;
pub use user_moves::{UserMove, are_user_moves, is_of_pen, lowers, user_move};
pub use width_parameters::{percent_setting, thickness_setting, width_unit_setting};
pub use width_setting::WidthSetting;
pub use width_table::{percent_of_all, widths_by};
