//! The stroke by which an area is measured.
ghost use Rattle.std.specs.Prelude.{◌≡◌, ◌≤◌, ◌^◌, nat_abs};
ghost use Rattle.std.specs.Int.{int_max, int_min};
ghost use Rattle.page_fit.specs.Shapes.{across, diagonal};

use plot_page::Stroke;

/// A stroke from corner to corner of the box of a stroke and more, drawn as the first one.
pub(crate) fn diagonal(first: &Stroke, more: &[Stroke]) -> Stroke
    ensures { result ≡ diagonal first.now more.now }
{
    let mut found = *first;
    for stroke in more {
        found = across(&found, stroke);
    }
    found
}

// The same of two strokes.
fn across(one: &Stroke, other: &Stroke) -> Stroke
    ensures { result ≡ across one.now other.now }
{
    Stroke {
        pen: one.pen,
        colour: one.colour,
        width: one.width,
        window: one.window,
        ax: least(one.ax, one.bx, other.ax, other.bx),
        ay: least(one.ay, one.by, other.ay, other.by),
        bx: greatest(one.ax, one.bx, other.ax, other.bx),
        by: greatest(one.ay, one.by, other.ay, other.by),
    }
}

// The least of the numbers of four ends.
fn least(a: i32, b: i32, c: i32, d: i32) -> i32
    requires a { nat_abs a ≤ 134217712 }
    requires b { nat_abs b ≤ 134217712 }
    requires c { nat_abs c ≤ 134217712 }
    requires d { nat_abs d ≤ 134217712 }
    ensures value { result ≡ int_min (int_min a b) (int_min c d) }
    ensures near { nat_abs result ≤ 134217712 }
{
    lesser(lesser(a, b), lesser(c, d))
}

fn lesser(a: i32, b: i32) -> i32
    requires a { nat_abs a ≤ 134217712 }
    requires b { nat_abs b ≤ 134217712 }
    ensures value { result ≡ int_min a b }
    ensures near { nat_abs result ≤ 134217712 }
{
    a.min(b)
}

// The greatest of them.
fn greatest(a: i32, b: i32, c: i32, d: i32) -> i32
    requires a { nat_abs a ≤ 134217712 }
    requires b { nat_abs b ≤ 134217712 }
    requires c { nat_abs c ≤ 134217712 }
    requires d { nat_abs d ≤ 134217712 }
    ensures value { result ≡ int_max (int_max a b) (int_max c d) }
    ensures near { nat_abs result ≤ 134217712 }
{
    greater(greater(a, b), greater(c, d))
}

fn greater(a: i32, b: i32) -> i32
    requires a { nat_abs a ≤ 134217712 }
    requires b { nat_abs b ≤ 134217712 }
    ensures value { result ≡ int_max a b }
    ensures near { nat_abs result ≤ 134217712 }
{
    a.max(b)
}
