// Samples packed into bytes.
use png::{Depth, pack_samples};

#[test]
fn samples_of_each_depth(rt: HostRuntime) {
    let mut row = [7; 2];
    pack_samples(
        Depth::One,
        &[1, 0, 0, 0, 0, 0, 1, 1, 0, 1, 1, 0, 0, 0, 0, 0],
        &mut row,
    );
    assert_eq!(rt; row, [0x83, 0x60]);
    pack_samples(Depth::Two, &[3, 0, 1, 2, 1, 0, 0, 0], &mut row);
    assert_eq!(rt; row, [0xc6, 0x40]);
    pack_samples(Depth::Four, &[15, 1, 2, 0, 9], &mut row);
    assert_eq!(rt; row, [0xf1, 0x20]);
    pack_samples(Depth::Eight, &[255, 3], &mut row);
    assert_eq!(rt; row, [255, 3]);
}
