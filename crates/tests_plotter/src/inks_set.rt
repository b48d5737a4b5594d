// White that TR hides, and lines that SV screens, by the text of plots. The colours that are wanted come from a plotter that was
// written apart from this one.
use crate::full_cases::{Asked, has_answers};
use std::test::Fail;

const HIDDEN_WHITE: &str = "\
// white is drawn until TR hides it
PC1,255,255,255;PU0,0;PD9,9;TR;PD0,9;TR0;PD9,9;
255 255 255 1744,944;255 255 255 1744,944;

// other colours are drawn
PC1,255,255,254;TR1;PD9,9;PC1,254,255,255;PD0,0;PC1,255,254,255;PD9,0;
255 255 254 1744,944;254 255 255 1600,800;255 254 255 1744,800;

// wrong numbers set nothing
PC1,255,255,255;TR;TR2;TR-1;PD9,9;TR0;TR2;PD0,0;
255 255 255 1600,800;

// it ends with DF, and with IN
PC1,255,255,255;TR;DF;PD9,9;TR;IN;PC1,255,255,255;PU9,9;PD0,0;
255 255 255 1744,944;255 255 255 1600,800;

// letters, symbols, ticks, edges, dashes and dots
PC1,255,255,255;TR;PU9,9;PD;LBL\x03SM*;PU20,20;SM;XT;EA40,40;EP;LT2,1;PD60,60;SD6,3;LBL\x03TR0;LT;PU0,0;PD9,0;
255 255 255 1744,800;

// fills of all kinds
PC1,255,255,255;TR;RA9,9;FT10,50;RA40,40;FT3,5;RA40,40;FT4,5;RA40,40;TR0;PD9,9;
255 255 255 1744,944;";

#[test]
fn hidden_white(rt: HostRuntime) -> Result<(), Fail> {
    has_answers(&rt, rt.alloc(), Asked::Colours, HIDDEN_WHITE, 6)
}

const SCREENED_LINES: &str = "\
// levels, half if none is named
SV1;PD9,0;SV1,0;PD9,9;SV1,12.5;PD0,9;SV1,100;PD0,0;SV1,33.4;PC1,255,100,3;PD5,5;SV;PD9,5;
127 127 127 1744,800;255 255 255 1744,944;223 223 223 1600,944;0 0 0 1600,800;255 203 171 1680,880;255 100 3 1744,880;

// letters, ticks, edges and hatching
SV1,20;PU9,9;LB.\x03PD;XT;PU9,9;EA20,20;FT3,7;RA20,20;
204 204 204 2352,944;204 204 204 3568,944;204 204 204 3568,984;204 204 204 1920,944;204 204 204 1920,1120;204 204 204 1744,1120;204 204 204 1744,944;204 204 204 1920,1008;

// no solid fill, and no shading
SV1,20;RA1,1;FT10,50;RA60,5;
0 0 0 1616,800;0 0 0 1616,816;0 0 0 1600,816;0 0 0 1600,800;0 0 0 2147,880;

// patterns screen nothing, and wrong numbers set nothing
SV1,50;SV2,10;PD9,0;SV1;SV3;SV1,101;SV1,-1;PD9,9;SV11;PD0,9;
0 0 0 1744,800;127 127 127 1744,944;0 0 0 1600,944;

// until DF, IN and BP
SV1;DF;PD9,0;SV1;IN;PD9,9;SV1;BP;PD0,9;
0 0 0 1744,800;0 0 0 1744,944;0 0 0 1600,944;

// white that is hidden, screened or not
SV1,0;TR;PD9,9;RA20,20;SV;PD9,0;
0 0 0 1920,944;0 0 0 1920,1120;0 0 0 1744,1120;0 0 0 1744,944;0 0 0 1744,800;";

#[test]
fn screened_lines(rt: HostRuntime) -> Result<(), Fail> {
    has_answers(&rt, rt.alloc(), Asked::Colours, SCREENED_LINES, 6)
}

const NOTES: &str = "\
TR;TR0;TR1,2;TR2;TRx;
13 bad TR;19 stray 120;

SV;SV0,200;SV1;SV1,100;SV2;SV11,5;SV21;SV22;SV3;SV1,101;SV1,-1;SV-1;
23 skipped SV;27 skipped SV;34 skipped SV;39 skipped SV;44 bad SV;48 bad SV;56 bad SV;63 bad SV;";

#[test]
fn notes_on_inks(rt: HostRuntime) -> Result<(), Fail> {
    has_answers(&rt, rt.alloc(), Asked::Notes, NOTES, 2)
}
