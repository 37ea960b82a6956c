//! One role of a desk in memory: what is left to read, what was written, and how many calls were made.

ghost use Rattle.std.specs.Prelude.{◌≡◌, ◌+◌, ◌-◌, ◌^◌, ◌<◌, ◌≤◌, ◌↔◌, ◌⊎◌, min, [], length, vec_len, vec_capacity, IsTrue, IsErr, IfOk, OnOk, OnErr, MatchResult, None, Some};

use crate::lists::Items;
use crate::{Failed, Way};
use std::alloc::{AllocError, Global};

/// The longest name, in bytes, under which a desk in memory binds a role.
pub const NAME_BYTES: usize = 4096;

/// One role.
#[derive(Drop)]
pub(crate) struct Slot {
    way: Option<Way>,
    name: Vec<u8>,
    input: Vec<u8>,
    at: usize,
    output: Vec<u8>,
    calls: u64,
    read_faults: u64,
    write_faults: u64,
    bind_faults: u64,
    ghost within: { at ≤ vec_len input },
    ghost name_room: { 4096 ≤ vec_capacity name },
}

impl Slot {
    ghost use Rattle.cp_io.specs.Port.{Binds, Reads, WritesSome};
    ghost use Rattle.cp_io.specs.Slots.{slot_port, slot_room, slot_left, fresh_port, next_count};

    /// A role with these bytes to read, and with room for a name.
    pub(crate) fn new(alloc: Global) -> Result<Slot, AllocError>
        ensures port { IfOk result (λ slot. slot_port slot ≡ fresh_port []) }
        ensures calls { IfOk result (λ slot. slot.calls ≡ 0) }
    {
        Ok(Slot {
            way: None,
            name: Vec::with_capacity(alloc, NAME_BYTES)?,
            input: Vec::new(alloc),
            at: 0,
            output: Vec::new(alloc),
            calls: 0,
            read_faults: 0,
            write_faults: 0,
            bind_faults: 0,
        })
    }

    /// Puts these bytes before the role.
    pub(crate) fn put(&mut self, bytes: Items<u8>)
        ensures port { slot_port self.new ≡ record (slot_port self.old) { left = Some bytes.items } }
        ensures calls { self.new.calls ≡ self.old.calls }
    {
        self.input = bytes.into_vec();
        self.at = 0;
    }

    /// The number of calls so far.
    pub(crate) fn calls(&self) -> u64
        ensures { result ≡ self.now.calls }
    {
        self.calls
    }

    /// What was written.
    pub(crate) fn written(&self) -> &[u8]
        ensures { (slot_port self.now).held ≡ Some result.now }
    {
        &self.output
    }

    /// Makes room for this many more bytes.
    pub(crate) fn reserve(&mut self, bytes: usize) -> Result<(), AllocError>
        ensures port { slot_port self.new ≡ slot_port self.old }
        ensures calls { self.new.calls ≡ self.old.calls }
        ensures ok { OnOk result (bytes ≤ slot_room self.new) }
        ensures more { slot_room self.old ≤ slot_room self.new }
    {
        self.output.reserve(bytes)
    }

    /// Binds the role, unless the call is to fail or the name is too long.
    pub(crate) fn bind(&mut self, fails: bool, way: Way, name: &str) -> Result<(), Failed>
        requires { self.old.way ≡ None }
        ensures binds { Binds way name.now result (slot_port self.old) (slot_port self.new) }
        ensures fails { IsErr result ↔ (IsTrue fails ⊎ 4096 < length name.now) }
        ensures calls { self.new.calls ≡ next_count self.old.calls }
        ensures room { slot_room self.new ≡ slot_room self.old }
    {
        self.calls = self.calls.saturating_add(1);
        self.name.clear();
        if fails || name.len() > NAME_BYTES {
            self.bind_faults = self.bind_faults.saturating_add(1);
            return Err(Failed);
        }
        match self.name.extend_from_slice(name.as_bytes()) {
            Ok(()) => {}
            Err(_) => unreachable!(),
        }
        self.way = Some(way);
        Ok(())
    }

    /// Moves a piece of what is left, unless the call is to fail.
    pub(crate) fn read(
        &mut self,
        fails: bool,
        piece: usize,
        into: &mut [u8],
    ) -> Result<usize, Failed>
        requires { 0 < piece }
        ensures reads { Reads result into.new (slot_port self.old) (slot_port self.new) }
        ensures fails { IsErr result ↔ IsTrue fails }
        ensures moved { IfOk result (λ n. n ≡ min (min (length (slot_left self.old)) (length into.old)) piece) }
        ensures calls { self.new.calls ≡ next_count self.old.calls }
        ensures room { slot_room self.new ≡ slot_room self.old }
    {
        self.calls = self.calls.saturating_add(1);
        if fails {
            self.read_faults = self.read_faults.saturating_add(1);
            return Err(Failed);
        }
        let left = &self.input[self.at..];
        let count = left.len().min(into.len()).min(piece);
        into[..count].copy_from_slice(&left[..count]);
        self.at += count;
        Ok(count)
    }

    /// Appends a piece to what was written, unless the call is to fail. It takes memory only past the room.
    pub(crate) fn write(&mut self, fails: bool, piece: usize, bytes: &[u8]) -> Result<usize, Failed>
        requires { 0 < piece }
        ensures writes { WritesSome bytes.now result (slot_port self.old) (slot_port self.new) }
        ensures fails { IsTrue fails → IsErr result }
        ensures cause { OnErr result (IsTrue fails ⊎ slot_room self.old < min (length bytes.now) piece) }
        ensures moved { IfOk result (λ n. n ≡ min (length bytes.now) piece) }
        ensures calls { self.new.calls ≡ next_count self.old.calls }
        ensures room { MatchResult result (λ n. slot_room self.old ≤ slot_room self.new + n) (λ _. slot_room self.old ≤ slot_room self.new) }
    {
        self.calls = self.calls.saturating_add(1);
        let count = bytes.len().min(piece);
        if fails || self.output.extend_from_slice(&bytes[..count]).is_err() {
            self.write_faults = self.write_faults.saturating_add(1);
            return Err(Failed);
        }
        Ok(count)
    }
}
