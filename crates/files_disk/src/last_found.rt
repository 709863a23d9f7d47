//! The path at which a regular file was found last, so that opening it needs no second look.
ghost use Rattle.std.specs.Prelude.{◌≡◌, ◌⊎◌, ◌<◌, ◌≤◌, [], length, take, IsTrue};

use std::marker::Model;

/// Longer paths are not kept.
const KEPT: usize = 255;

/// The path, or none. It takes no memory.
#[derive(Drop)]
pub struct LastFound {
    path: [u8; KEPT],
    len: u8,
}

impl Model for LastFound {
    ghost use Rattle.std.specs.Prelude.{ℕ, List, take};

    ghost Value = { List ℕ };

    ghost view = { λ l. take l.len l.path };
}

impl LastFound {
    /// No path.
    pub fn none() -> LastFound
        ensures none { result ≡ [] }
    {
        LastFound {
            path: [0; KEPT],
            len: 0,
        }
    }

    /// Keeps a path in place of the one before.
    pub fn keep(&mut self, path: &[u8])
        ensures kept { (self.new ≡ path.now) ⊎ (self.new ≡ []) }
    {
        self.len = 0;
        if path.len() <= KEPT {
            put(&mut self.path, path);
            self.len = path.len() as u8;
        }
    }

    /// Whether it is this path. No path is kept then.
    pub fn take(&mut self, path: &[u8]) -> bool
        ensures same { IsTrue result → (self.old ≡ path.now) × (0 < length path.now) }
        ensures none { self.new ≡ [] }
    {
        let same = self.len > 0 && &self.path[..self.len as usize] == path;
        self.len = 0;
        same
    }
}

// Writes bytes over the first of a buffer.
fn put(buf: &mut [u8], bytes: &[u8])
    requires { length bytes.now ≤ length buf.old }
    ensures { take (length bytes.now) buf.new ≡ bytes.now }
{
    buf[..bytes.len()].copy_from_slice(bytes);
}
