//! A wire in memory.

ghost use Rattle.std.specs.Prelude.{◌≡◌, ◌<◌, ◌≤◌, ◌+◌, ◌-◌, ◌↔◌, ◌⊎◌, ℕ, List, [], ◌∷◌, ◌++◌, length, take, drop, min, Some, IsTrue, IsErr, IfOk, OnOk, OnErr, vec_len, vec_capacity, refl};
ghost use Rattle.anb_base.specs.Memory.{raised, called, fails_after, fresh_wire, IsDueToFail, HasNoRoom, HasNoRoomForLine};
ghost use Rattle.anb_base.specs.Memory.{read_failed, write_failed, reach_failed, after_read, after_write, after_reach};
ghost use Rattle.anb_base.specs.Places.{line_of};

use super::calls::{Calls, one_more};
use crate::{Bytes, Failed, NoMemory, Place, Sink, Source, Wire};
use std::alloc::Global;
use std::marker::Model;

/// A buffer that never takes memory after it is made.
#[derive(Debug, Drop)]
struct Room {
    bytes: Vec<u8>,
    limit: u32,
    ghost within: { vec_len bytes ≤ limit },
    ghost reserved: { limit ≤ vec_capacity bytes },
}

impl Room {
    fn new(alloc: Global, limit: u32) -> Result<Self, NoMemory>
        ensures empty { IfOk result (λ room. room.bytes.items ≡ []) }
        ensures limit { IfOk result (λ room. room.limit ≡ limit) }
    {
        Ok(Room {
            bytes: Vec::with_capacity(alloc, limit as usize)?,
            limit,
        })
    }

    fn len(&self) -> usize
        ensures { result ≡ length self.now.bytes.items }
    {
        self.bytes.len()
    }

    fn left(&self) -> usize
        ensures { result ≡ self.now.limit - length self.now.bytes.items }
    {
        self.limit as usize - self.bytes.len()
    }

    fn put(&mut self, bytes: &[u8])
        requires { length bytes.now ≤ self.old.limit - length self.old.bytes.items }
        ensures put { self.new.bytes.items ≡ self.old.bytes.items ++ bytes.now }
        ensures limit { self.new.limit ≡ self.old.limit }
    {
        self.bytes.extend_from_slice(bytes).unwrap();
    }

    /// Whether the two words and a line feed fit.
    fn has_room_for_line(&self, word: &str, at: &str) -> bool
        ensures { let line = length word.now + length at.now + 1 in
            IsTrue result ↔ (length self.now.bytes.items + line ≤ self.now.limit) }
    {
        let length = word.len().saturating_add(at.len()).saturating_add(1);
        length <= self.left()
    }
}

/// A wire in memory. What can be read stands in it from the start, reads and writes move a piece
/// at most, and calls fail by their numbers, which count reads, writes and reaches together. A
/// place of the stamps is given to each byte of the input, and has its meaning once that is read.
#[derive(Debug, Drop)]
pub struct MemWire {
    input: Bytes,
    read: usize,
    stamps: Vec<usize>,
    piece: u32,
    written: Room,
    reached: Room,
    calls: Calls,
    read_faults: u64,
    write_faults: u64,
    reach_faults: u64,
}

impl Model for MemWire {
    ghost use Rattle.std.specs.Prelude.{◌≡◌, ◌≤◌, ◌<◌, length, drop};
    ghost use Rattle.anb_base.specs.Memory.{MemoryWire};

    ghost Value = { MemoryWire };

    ghost use Rattle.anb_base.specs.MemoryViews.{wire_of, IsWithin};

    ghost view = { wire_of };

    ghost invariant = { IsWithin };
}

impl MemWire {
    /// A wire on which nothing was read, written or reached. It has room for `room` bytes written
    /// and for as many bytes of lines reached, and takes its memory here. The calls whose numbers
    /// from 1 stand in `fails` answer `Failed`.
    pub fn new(
        alloc: Global,
        input: Bytes,
        piece: u32,
        room: u32,
        fails: Vec<u32>,
    ) -> Result<Self, NoMemory>
        requires { 0 < piece }
        ensures { IfOk result (λ wire. wire ≡ fresh_wire input piece room fails.items) }
    {
        let stamps = vec![in alloc; 0usize; input.as_slice().len()]?;
        Ok(MemWire {
            input,
            read: 0,
            stamps,
            piece,
            written: Room::new(alloc, room)?,
            reached: Room::new(alloc, room)?,
            calls: Calls::new(fails),
            read_faults: 0,
            write_faults: 0,
            reach_faults: 0,
        })
    }

    pub fn written(&self) -> &[u8]
        ensures { result.now ≡ self.now.written }
    {
        &self.written.bytes
    }

    /// For each byte that was read, how many had been written by then.
    pub fn taken_at(&self) -> &[usize]
        ensures { result.now ≡ self.now.taken_at }
    {
        &self.stamps[..self.read]
    }

    /// The lines of the places that were reached.
    pub fn reached(&self) -> &[u8]
        ensures { result.now ≡ self.now.reached }
    {
        &self.reached.bytes
    }
}

impl Source for MemWire {
    ghost left = { λ wire. Some wire.left };

    ghost taken_at = { λ wire. Some wire.taken_at };

    ghost faults = { λ wire. wire.read_faults };

    ghost kept = { λ wire. (Some wire.written, wire.write_faults)
        ∷ (Some wire.reached, wire.reach_faults) ∷ [] };

    fn read(&mut self, buf: &mut [u8]) -> Result<usize, Failed>
        ensures fails { IsErr result ↔ IsDueToFail self.old }
        ensures failed { OnErr result (self.new ≡ read_failed self.old) }
        ensures count { IfOk result (λ n.
            n ≡ min self.old.piece (min (length buf.old) (length self.old.left))) }
        ensures bytes { IfOk result (λ n. buf.new ≡ take n self.old.left ++ drop n buf.old) }
        ensures moved { IfOk result (λ n. self.new ≡ after_read self.old n) }
        ensures end { IfOk result (λ n. 0 < length buf.new → n ≡ 0 → self.old.left ≡ []) }
        ensures never_falls { self.old.read_faults ≤ self.new.read_faults }
    {
        if self.calls.next_fails() {
            self.read_faults = one_more(self.read_faults);
            return Err(Failed);
        }
        let left = &self.input.as_slice()[self.read..];
        let n = (self.piece as usize).min(buf.len().min(left.len()));
        buf[..n].copy_from_slice(&left[..n]);
        let written = self.written.len();
        self.stamps[self.read..self.read + n].fill(written);
        self.read += n;
        Ok(n)
    }
}

impl Sink for MemWire {
    ghost written = { λ wire. Some wire.written };

    ghost faults = { λ wire. wire.write_faults };

    ghost kept = { λ wire. (Some wire.left, wire.read_faults)
        ∷ (Some wire.reached, wire.reach_faults) ∷ (Some wire.taken_at, 0) ∷ [] };

    fn write(&mut self, piece: &[u8]) -> Result<usize, Failed>
        ensures fails { IsErr result ↔ (IsDueToFail self.old ⊎ HasNoRoom self.old piece.now) }
        ensures failed { OnErr result (self.new ≡ write_failed self.old) }
        ensures count { IfOk result (λ n.
            let room = self.old.room - length self.old.written in
            n ≡ min self.old.piece (min (length piece.now) room)) }
        ensures moved { IfOk result (λ n. self.new ≡ after_write self.old (take n piece.now)) }
        ensures some { IfOk result (λ n. 0 < length piece.now → 0 < n) }
        ensures never_falls { self.old.write_faults ≤ self.new.write_faults }
    {
        let fails = self.calls.next_fails();
        let left = self.written.left();
        if fails || (!piece.is_empty() && left == 0) {
            self.write_faults = one_more(self.write_faults);
            return Err(Failed);
        }
        let n = (self.piece as usize).min(piece.len().min(left));
        self.written.put(&piece[..n]);
        Ok(n)
    }
}

impl Wire for MemWire {
    ghost reached = { λ wire. Some wire.reached };

    ghost reach_faults = { λ wire. wire.reach_faults };

    ghost state = { λ wire. record {
      left = Some wire.left;
      taken_at = Some wire.taken_at;
      read_faults = wire.read_faults;
      written = Some wire.written;
      write_faults = wire.write_faults;
      reached = Some wire.reached;
      reach_faults = wire.reach_faults;
    } };

    ghost state_tells = { λ wire. refl };

    ghost beside_source = { λ wire. refl };

    ghost beside_sink = { λ wire. refl };

    fn reach(&mut self, place: &Place) -> Result<(), Failed>
        ensures fails { IsErr result
            ↔ (IsDueToFail self.old ⊎ HasNoRoomForLine self.old (line_of place.now)) }
        ensures failed { OnErr result (self.new ≡ reach_failed self.old) }
        ensures reached { OnOk result (self.new ≡ after_reach self.old (line_of place.now)) }
        ensures never_falls { self.old.reach_faults ≤ self.new.reach_faults }
    {
        let fails = self.calls.next_fails();
        let (word, at) = place.words();
        if fails || !self.reached.has_room_for_line(word, at) {
            self.reach_faults = one_more(self.reach_faults);
            return Err(Failed);
        }
        self.reached.put(word.as_bytes());
        self.reached.put(at.as_bytes());
        self.reached.put(b"\n");
        Ok(())
    }

    fn wait_at_most(&mut self, _seconds: u32)
        ensures { self.new ≡ self.old }
    {}
}
