//! The bytes of a line that gives only their number.
ghost use Rattle.std.specs.Prelude.{◌≡◌, IfOk};
ghost use Rattle.script_net.specs.Letters.{letters};

use lt_bytes::NoMemory;
use std::alloc::Global;

/// The letters from `a` to `z`, again and again.
pub fn letters(alloc: Global, size: usize) -> Result<Vec<u8>, NoMemory>
    ensures { IfOk result (λ bytes. bytes.items ≡ letters size) }
{
    let Ok(mut bytes) = Vec::with_capacity(alloc, size) else {
        return Err(NoMemory);
    };
    for i in 0..size {
        bytes.push_reserved(b'a' + (i % 26) as u8);
    }
    Ok(bytes)
}
