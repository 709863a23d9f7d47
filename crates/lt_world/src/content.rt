//! The bytes of a file in memory, which every opening of it shares.
ghost use Rattle.std.specs.Prelude.{◌≡◌, ◌<◌, ◌^◌, length, IfOk};

use lt_bytes::{NoMemory, Text};
use std::alloc::Global;
use std::rc::Rc;

/// A file has fewer bytes than this.
const SIZE_LIMIT: u64 = 1 << 62;

#[derive(Drop)]
pub struct Content {
    pub bytes: Rc<Text>,
    pub time: u64,
    ghost short: { length bytes.value < 2 ^ 62 },
}

impl Content {
    pub fn copy_of(alloc: Global, time: u64, bytes: &[u8]) -> Result<Content, NoMemory>
        ensures bytes { IfOk result (λ content. content.bytes.value ≡ bytes.now) }
        ensures time { IfOk result (λ content. content.time ≡ time) }
    {
        if bytes.len() as u64 >= SIZE_LIMIT {
            return Err(NoMemory);
        }
        let text = Text::from_bytes(alloc, bytes)?;
        match Rc::new(alloc, text) {
            Ok(bytes) => Ok(Content { bytes, time }),
            Err(_) => Err(NoMemory),
        }
    }

    pub fn size(&self) -> u64
        ensures { result ≡ length self.now.bytes.value }
    {
        self.bytes.len() as u64
    }
}
