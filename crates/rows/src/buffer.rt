//! Buffers of bytes.
ghost use Rattle.std.specs.Prelude.{◌≡◌, length, replicate, IfOk};

use std::alloc::{AllocError, Global};

/// A buffer of this many bytes, which are 0.
///
/// Errors: if the heap gives no memory.
pub fn buffer_of(alloc: Global, size: usize) -> Result<Vec<u8>, AllocError>
    ensures size { IfOk result (λ buffer. length buffer.items ≡ size) }
    ensures zeros { IfOk result (λ buffer. buffer.items ≡ replicate size 0) }
{
    Ok(vec![in alloc; 0u8; size]?)
}
