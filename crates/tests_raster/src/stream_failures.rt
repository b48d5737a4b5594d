// Sinks that take little, or fail once and go on.
use crate::deflate_streams::noise;
use crate::narrow::narrow_sink;
use deflate::{Code, Deflater};
use devices::{Sink, put_all};
use std::alloc::Global;
use std::process::Abort;
use std::test::Fail;

// What went wrong before the stream was whole, and what the sink has.
#[derive(Drop)]
struct Written {
    bytes: Vec<u8>,
    faults: usize,
    ended: bool,
}

// Writes a text to a sink that fails once, and goes on after the last byte that was taken: by `write`,
// or by `put_all`.
fn going_on(
    rt: &impl Abort,
    alloc: Global,
    text: &[u8],
    limit: usize,
    step: usize,
    faults: bool,
    own: bool,
) -> Result<Written, Fail> {
    let sink = narrow_sink(alloc, limit, step, faults);
    let mut deflater = Deflater::new(Code::Lines, sink);
    let mut at = 0;
    let mut failed = 0;
    for _ in 0..3 {
        assert!(rt; at <= text.len() && deflater.failures() < 9 && failed < 9);
        let left = &text[at..];
        let done = if own {
            deflater.write(left)
        } else {
            put_all(&mut deflater, left)
        };
        match done {
            Ok(()) => at = text.len(),
            Err(fault) => {
                at += fault.bytes() as usize;
                failed += 1;
            }
        }
    }
    assert!(rt; deflater.failures() < 9);
    let ended = deflater.finish().is_ok();
    Ok(Written {
        bytes: deflater.into_sink().bytes,
        faults: failed,
        ended,
    })
}

// The stream is the same, wherever the sink fails once, and whichever way. A failure of the last
// bytes is an error, and leaves the first bytes of the stream.
#[test]
fn a_failure_on_the_way(rt: HostRuntime) -> Result<(), Fail> {
    let text = noise(rt.alloc(), 10000)?;
    let want = going_on(&rt, rt.alloc(), &text, 1000000, 1000000, true, true)?.bytes;
    assert_eq!(rt; want.len(), 13836);
    for limit in [0, 1, 4095, 4097, 5000, 9000, 12300, 13835] {
        for faults in [true, false] {
            let written = going_on(&rt, rt.alloc(), &text, limit, 1, faults, faults)?;
            if written.ended {
                assert_eq!(rt; written.faults, 1, "failing at {limit}");
                assert_eq!(rt;
                    written.bytes.as_slice(),
                    want.as_slice(),
                    "failing at {limit}"
                );
            } else {
                assert_eq!(rt; written.faults, 0, "failing at {limit}");
                assert_eq!(rt;
                    written.bytes.as_slice(),
                    &want[..limit],
                    "failing at {limit}"
                );
            }
        }
    }
    Ok(())
}

// All of a short text's stream is written at its end, in two parts, and the fault says how much was.
#[test]
fn a_failure_at_the_end(rt: HostRuntime) -> Result<(), Fail> {
    let text = noise(rt.alloc(), 3072)?;
    let want = going_on(&rt, rt.alloc(), &text, 1000000, 1000000, true, true)?.bytes;
    for left in [4300, 200, 7, 4, 1] {
        let limit = want.len().saturating_sub(left);
        let mut deflater = Deflater::new(Code::Lines, narrow_sink(rt.alloc(), limit, 700, true));
        put_all(&mut deflater, &text)?;
        assert!(rt; deflater.failures() == 0);
        let fault = deflater.finish().err().ok_or("ended")?;
        assert_eq!(rt; fault.bytes(), limit as u64);
        assert_eq!(rt; deflater.into_sink().bytes.as_slice(), &want[..limit]);
    }
    Ok(())
}
