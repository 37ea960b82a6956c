//! The bytes that were fed to a reader.

ghost use Rattle.std.specs.Prelude.{◌≡◌, ◌+◌, ◌<◌, ◌≤◌, [], length, is_ok, if◌then◌else◌, IsOk};
ghost use Rattle.cp_text.specs.Collected.{Kept, with_bytes};

use std::alloc::{AllocError, Global};
use std::marker::Model;

/// The bytes that were fed to a reader, of which at most one past the limit is kept: behind it nothing is looked at.
#[derive(Drop)]
pub struct Collected {
    limit: u64,
    bytes: Vec<u8>,
}

impl Model for Collected {
    ghost Value = { Kept };

    ghost view = { λ c. record { limit = c.limit; bytes = c.bytes.items } };

    ghost invariant = { λ c. length c.bytes.items ≤ c.limit + 1 };
}

impl Collected {
    /// No bytes, of a reader with this limit.
    pub fn new(alloc: Global, limit: u64) -> Collected
        ensures { result ≡ record { limit = limit; bytes = [] } }
    {
        Collected {
            limit,
            bytes: Vec::new(alloc),
        }
    }

    /// Keeps these bytes too. Where there is no memory, all is as before. Past the limit it takes none.
    pub fn take(&mut self, bytes: &[u8]) -> Result<(), AllocError>
        ensures full { self.old.limit < length self.old.bytes → IsOk result }
        ensures bytes { self.new ≡ (if is_ok result then with_bytes self.old bytes.now else self.old) }
    {
        let have = self.bytes.len() as u64;
        if have > self.limit {
            return Ok(());
        }
        let room = self.limit - have;
        if bytes.len() as u64 <= room {
            return self.bytes.extend_from_slice(bytes);
        }
        let (front, _) = bytes.split_at(room as usize + 1);
        self.bytes.extend_from_slice(front)
    }

    /// The bytes that are kept.
    pub fn bytes(&self) -> &[u8]
        ensures bytes { result.now ≡ self.now.bytes }
        ensures few { length self.now.bytes ≤ self.now.limit + 1 }
    {
        &self.bytes
    }
}
