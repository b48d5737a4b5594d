//! An assignment of a value to pens.
ghost use Rattle.std.specs.Prelude.{◌≡◌};
ghost use Rattle.pen_list.specs.Assignments.{pens_of, value_of};

// PENS and VALUE of an assignment PENS=VALUE. Without a `=` all of the text is PENS, and VALUE is empty.
pub(crate) fn sides(assignment: &str) -> (&str, &str)
    ensures pens { result.0.now ≡ pens_of assignment.now }
    ensures value { result.1.now ≡ value_of assignment.now }
{
    match assignment.split_once('=') {
        Some(sides) => sides,
        None => (assignment, ""),
    }
}
