//! What `--page` names: papers, or the plot.
ghost use Rattle.std.specs.Prelude.{◌≡◌, map};
ghost use Rattle.command_line.specs.Papers.{landscape_of, names_plot, paper_of, size_in, size_named};

/// The width and the height of A4 in landscape.
pub(crate) const A4: (u32, u32) = (11880, 8400);

// The name of each paper, and its width and height in landscape, in plotter units.
const PAPERS: [(&str, (u32, u32)); 17] = [
    ("a0", (47560, 33640)),
    ("a1", (33640, 23760)),
    ("a2", (23760, 16800)),
    ("a3", (16800, 11880)),
    ("a4", A4),
    ("a5", (8400, 5920)),
    ("b4", (14120, 10000)),
    ("letter", (11176, 8636)),
    ("legal", (14224, 8636)),
    ("tabloid", (17272, 11176)),
    ("ansi-a", (11176, 8636)),
    ("ansi-b", (17272, 11176)),
    ("ansi-c", (22352, 17272)),
    ("ansi-d", (34544, 22352)),
    ("ansi-e", (44704, 34544)),
    ("arch-d", (36576, 24384)),
    ("arch-e", (48768, 36576)),
];

/// Whether the plot is named, whose size is to be that which it asks for.
pub(crate) fn names_plot(name: &str) -> bool
    ensures { result ≡ names_plot name.now }
{
    name == "plot"
}

/// The width and the height of the page that is given by a name, in plotter units: those of the paper,
/// or for the plot those of A4 in landscape.
pub(crate) fn size_named(name: &str) -> Option<(u32, u32)>
    ensures { result ≡ size_named name.now }
{
    if names_plot(name) {
        return Some(A4);
    }
    paper_named(name)
}

// The width and the height of the paper of this name: in landscape, or in portrait if `-portrait`
// follows the name.
fn paper_named(name: &str) -> Option<(u32, u32)>
    ensures { result ≡ paper_of name.now }
{
    let Some(paper) = name.strip_suffix("-portrait") else {
        return landscape_named(name);
    };
    let (width, height) = landscape_named(paper)?;
    Some((height, width))
}

fn landscape_named(name: &str) -> Option<(u32, u32)>
    ensures { result ≡ landscape_of name.now }
{
    size_in(&PAPERS, name)
}

// The size in the first row of this name.
fn size_in(rows: &[(&str, (u32, u32))], name: &str) -> Option<(u32, u32)>
    ensures { result ≡ size_in (map (λ row. (row.0.now, row.1)) rows.now) name.now }
{
    for &(paper, size) in rows {
        if paper == name {
            return Some(size);
        }
    }
    None
}
