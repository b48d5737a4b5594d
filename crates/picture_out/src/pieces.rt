//! Bytes written to a sink, with their count.
ghost use Rattle.std.specs.Prelude.{◌≡◌, ◌-◌, ◌+◌, ◌^◌, ◌<◌, ◌++◌, length, IfOk};
ghost use Rattle.devices.specs.Sinks.{Writes};

use devices::{Sink, WriteFault, put_all};

// `put_all`, with the count of the bytes.
pub(crate) fn put_counted<K: Sink>(sink: &mut K, bytes: &[u8]) -> Result<u64, WriteFault>
    requires sound { (K.state sink.old).faults < 2 ^ 64 - 1 }
    ensures writes { Writes (K.state sink.old) (K.state sink.new) bytes.now result }
    ensures count { IfOk result (λ n. n ≡ length bytes.now) }
{
    put_all(sink, bytes)?;
    Ok(bytes.len() as u64)
}

// Writes two pieces, one after the other, with the count of their bytes.
pub(crate) fn put_both<K: Sink>(
    sink: &mut K,
    first: &[u8],
    second: &[u8],
) -> Result<u64, WriteFault>
    requires sound { (K.state sink.old).faults < 2 ^ 64 - 1 }
    ensures writes { Writes (K.state sink.old) (K.state sink.new) (first.now ++ second.now) result }
    ensures count { IfOk result (λ n. n ≡ length (first.now ++ second.now)) }
{
    let done = put_counted(sink, first)?;
    match put_counted(sink, second) {
        Ok(bytes) => Ok(done + bytes),
        Err(fault) => Err(fault.after(done)),
    }
}
