// Checksums that zlib computes.
use crc32::{Crc, crc_of};

#[test]
fn crc_32(rt: HostRuntime) {
    for (bytes, want) in [
        (b"".as_slice(), 0),
        (b"123456789".as_slice(), 0xcbf43926),
        (b"IEND".as_slice(), 0xae426082),
        (b"\xff\xff\xff\xff".as_slice(), 0xffffffff),
        (
            b"The quick brown fox jumps over the lazy dog".as_slice(),
            0x414fa339,
        ),
    ] {
        assert_eq!(rt; crc_of(bytes), want);
        for cut in 0..bytes.len() {
            let mut crc = Crc::new();
            crc.add(&bytes[..cut]);
            crc.add(&bytes[cut..]);
            assert_eq!(rt; crc.value(), want, "cut at {cut}");
        }
    }
}
