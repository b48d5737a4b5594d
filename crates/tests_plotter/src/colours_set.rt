// Colours in the ranges that CR sets, and P1 and P2 that IR sets, by the text of plots. What is wanted was worked out by
// hand.
use crate::full_cases::{Asked, has_answers};
use std::test::Fail;

const COLOURS_IN_RANGES: &str = "\
CR0,100,0,100,0,100;PC1,100,50,0;PD;
255 128 0 1600,800;

CR0,1,0,1,0,1;PC1,0.5,2,-1;PD;
128 255 0 1600,800;

CR100,0,0,255,0,255;PC1,25,7,8;PD;
191 7 8 1600,800;

// the usual ranges, after CR, IN and BP, and kept by DF
CR0,9,0,9,0,9;CR;PC1,9,9,9;PD;
9 9 9 1600,800;

CR0,9,0,9,0,9;IN;PC1,9,9,9;PD;
9 9 9 1600,800;

CR0,9,0,9,0,9;BP;PC1,9,9,9;PD;
9 9 9 1600,800;

CR0,9,0,9,0,9;DF;PC1,9,9,9;PD;
255 255 255 1600,800;

// wrong numbers set nothing
CR1,1,0,9,0,9;CR0,9;PC1,9,9,9;PD;
9 9 9 1600,800;";

#[test]
fn colours_in_ranges(rt: HostRuntime) -> Result<(), Fail> {
    has_answers(&rt, rt.alloc(), Asked::Colours, COLOURS_IN_RANGES, 8)
}

const POINTS_IN_PERCENT_OF_THE_PAGE: &str = "\
IR25,50,75,100;SC0,1,0,1;PA0,0;PD;PU;PA1,1;PD;
0 0 0 4000,4000;0 0 0 12000,8000;

// of the page as it is turned
RO90;IR0,0,100,50;SC0,1,0,1;PA1,1;PD;
0 0 0 8000,8000;

// P2 keeps its distance
IR0,0,10,10;IR50,50;SC0,1,0,1;PA1,1;PD;
0 0 0 9600,4800;

IR1,1,2,2;IR;SC0,1,0,1;PA1,1;PD;
0 0 0 16000,8000;";

#[test]
fn points_in_percent_of_the_page(rt: HostRuntime) -> Result<(), Fail> {
    has_answers(
        &rt,
        rt.alloc(),
        Asked::Colours,
        POINTS_IN_PERCENT_OF_THE_PAGE,
        4,
    )
}
