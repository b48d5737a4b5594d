use carousel::{Carousel, Colour};
use pen_list::{read_colours, read_widths};
use std::test::Fail;

#[test]
fn empty_assignments(rt: HostRuntime) -> Result<(), Fail> {
    let none = Carousel::empty();
    assert_eq!(rt; read_colours("", none).err(), Some(""));
    assert_eq!(rt; read_colours(",1=red", none).err(), Some(""));
    assert_eq!(rt; read_colours("1=red,,2=bleu", none).err(), Some(""));
    assert_eq!(rt; read_widths("", none).err(), Some(""));
    assert_eq!(rt; read_widths("1=1,", none).err(), Some(""));
    Ok(())
}

const RED: Colour = Colour {
    red: 255,
    green: 0,
    blue: 0,
};

#[test]
fn others_are_kept(rt: HostRuntime) -> Result<(), Fail> {
    let had = Carousel::empty().with_width(2, 100).with_colour(2, RED);
    let widths = read_widths("3=1", had).ok().ok_or("a bad list")?;
    assert_eq!(rt; widths.width_of(2), Some(100));
    assert_eq!(rt; widths.width_of(3), Some(640));
    assert_eq!(rt; widths.colour_of(2), Some(RED));
    let colours = read_colours("3=red", had).ok().ok_or("a bad list")?;
    assert_eq!(rt; colours.colour_of(2), Some(RED));
    assert_eq!(rt; colours.colour_of(3), Some(RED));
    assert_eq!(rt; colours.width_of(2), Some(100));
    Ok(())
}
