// A cell for each place.
ghost use Rattle.std.specs.Prelude.{◌≡◌, IfOk, None, replicate, vec_len};

use lt_bytes::NoMemory;
use std::alloc::Global;

/// How many places there are: a power of two, far above the number of links, so that a free place is near.
pub const PLACES: usize = 4096;

/// Empty cells, for which memory is taken at once.
pub fn cells<T: Drop>(alloc: Global) -> Result<Vec<Option<T>>, NoMemory>
    ensures cells { IfOk result (λ cells. cells.items ≡ replicate 4096 None) }
    ensures len { IfOk result (λ cells. vec_len cells ≡ 4096) }
{
    let Ok(mut cells) = Vec::with_capacity(alloc, PLACES) else {
        return Err(NoMemory);
    };
    while cells.len() < PLACES {
        if cells.push(None).is_err() {
            return Err(NoMemory);
        }
    }
    Ok(cells)
}
