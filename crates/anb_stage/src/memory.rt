//! Children in memory.

ghost use Rattle.std.specs.Prelude.{◌≡◌, ◌<◌, ◌≤◌, ◌+◌, ◌-◌, ◌^◌, ◌↔◌, ◌⊎◌, ℕ, List, [], ◌∷◌, ◌++◌, length, take, drop, min, Some, None, IfSome, IfNone, true, IsTrue, IsErr, IfOk, OnOk, OnErr, vec_len, vec_capacity};
ghost use Rattle.anb_base.specs.Memory.{raised, fails_after};
ghost use Rattle.anb_base.specs.Moves.{Rose};
ghost use Rattle.anb_stage.specs.Children.{limit_word, lines, written_to_all};
ghost use Rattle.anb_stage.specs.Words.{asked_by, own_file};
ghost use Rattle.anb_stage.specs.Memory.{fresh_child, fresh_spawner, child_at, children_of, failed, failed_at, after_read, after_write, after_start, after_finish, IsDueToFail, HasNoOutput, HasNoRoom, HasNoRoomForWords, with_child};

use crate::{ChildWords, ROLES, Spawner};
use anb_base::{Bytes, Failed, NoMemory, Text};
use itoa::Buffer;
use std::alloc::Global;
use std::marker::Model;

/// A buffer that never takes memory after it is made.
#[derive(Debug, Drop)]
struct Room {
    bytes: Vec<u8>,
    limit: u32,
    ghost within: { vec_len bytes ≤ limit },
    ghost reserved: { limit ≤ vec_capacity bytes },
}

impl Room {
    fn new(alloc: Global, limit: u32) -> Result<Self, NoMemory>
        ensures empty { IfOk result (λ room. room.bytes.items ≡ []) }
        ensures limit { IfOk result (λ room. room.limit ≡ limit) }
    {
        Ok(Room {
            bytes: Vec::with_capacity(alloc, limit as usize)?,
            limit,
        })
    }

    fn len(&self) -> usize
        ensures length { result ≡ length self.now.bytes.items }
        ensures most { result < 2 ^ 32 }
    {
        prove!(self.bytes.len() <= self.limit as usize);
        self.bytes.len()
    }

    fn left(&self) -> usize
        ensures { result ≡ self.now.limit - length self.now.bytes.items }
    {
        self.limit as usize - self.bytes.len()
    }

    fn put(&mut self, bytes: &[u8])
        requires { length bytes.now ≤ self.old.limit - length self.old.bytes.items }
        ensures put { self.new.bytes.items ≡ self.old.bytes.items ++ bytes.now }
        ensures limit { self.new.limit ≡ self.old.limit }
    {
        self.bytes.extend_from_slice(bytes).unwrap();
    }

    /// Puts the words of the program, the limit and the words, each with a line feed.
    fn put_asked(&mut self, program: &[Text], limit: &str, words: &[Text])
        requires { length self.old.bytes.items
            + length (lines (program.now ++ limit.now ∷ words.now)) ≤ self.old.limit }
        ensures put { self.new.bytes.items
            ≡ self.old.bytes.items ++ lines (program.now ++ limit.now ∷ words.now) }
        ensures limit { self.new.limit ≡ self.old.limit }
    {
        self.put_lines(program);
        self.put(limit.as_bytes());
        self.put(b"\n");
        self.put_lines(words);
    }

    /// Puts what stands for the file of a child's own, where it has one, and a line feed.
    fn put_values(&mut self, values: &Option<Bytes>)
        requires { length self.old.bytes.items + length (lines (own_file values.now))
            ≤ self.old.limit }
        ensures put { self.new.bytes.items
            ≡ self.old.bytes.items ++ lines (own_file values.now) }
        ensures limit { self.new.limit ≡ self.old.limit }
    {
        if let Some(values) = values {
            self.put(b"\0");
            self.put(values.as_slice());
            self.put(b"\n");
        }
    }

    /// Puts the words, each with a line feed.
    fn put_lines(&mut self, words: &[Text])
        requires { length self.old.bytes.items + length (lines words.now) ≤ self.old.limit }
        ensures put { self.new.bytes.items ≡ self.old.bytes.items ++ lines words.now }
        ensures limit { self.new.limit ≡ self.old.limit }
    {
        for word in words {
            self.put(word.as_str().as_bytes());
            self.put(b"\n");
        }
    }
}

/// A child whose output stands from the start. A place of the stamps is given to each byte of it, and
/// has its meaning once that is read.
#[derive(Debug, Drop)]
pub(crate) struct MemChild {
    output: Bytes,
    read: usize,
    stamps: Vec<usize>,
    written: Room,
    asked: Room,
    status: u8,
    faults: u64,
    silent: bool,
    phase: u8,
}

impl Model for MemChild {
    ghost use Rattle.std.specs.Prelude.{◌≡◌, ◌≤◌, length, take, drop};
    ghost use Rattle.anb_stage.specs.Memory.{MemoryChild};

    ghost Value = { MemoryChild };

    ghost view = { λ c. record {
      left = drop c.read c.output;
      taken_at = take c.read c.stamps.items;
      written = c.written.bytes.items;
      asked = c.asked.bytes.items;
      status = c.status;
      room = c.written.limit;
      faults = c.faults;
      silent = c.silent;
      phase = c.phase;
    } };

    ghost invariant = { λ c. (c.read ≤ length c.output) × (c.asked.limit ≡ c.written.limit)
        × (length c.stamps.items ≡ length c.output) };
}

impl MemChild {
    fn new(alloc: Global, output: Bytes, status: u8, room: u32) -> Result<Self, NoMemory>
        ensures { IfOk result (λ child. child ≡ fresh_child room output status) }
    {
        let stamps = vec![in alloc; 0usize; output.as_slice().len()]?;
        Ok(MemChild {
            output,
            read: 0,
            stamps,
            written: Room::new(alloc, room)?,
            asked: Room::new(alloc, room)?,
            status,
            faults: 0,
            silent: false,
            phase: 0,
        })
    }

    /// Counts a call that failed, by silence or not.
    fn fail(&mut self, silent: bool) -> Failed
        ensures failed { self.new ≡ failed silent self.old }
        ensures rose { Rose self.old.faults self.new.faults }
        ensures never_falls { self.old.faults ≤ self.new.faults }
    {
        self.faults = self.faults.saturating_add(1);
        self.silent = silent;
        Failed
    }

    /// Takes as many bytes as the buffer has room for, while so many were written to all children.
    fn read(&mut self, written: usize, buf: &mut [u8]) -> usize
        ensures count { result ≡ min (length buf.old) (length self.old.left) }
        ensures bytes { buf.new ≡ take result self.old.left ++ drop result buf.old }
        ensures moved { self.new ≡ after_read self.old written result }
    {
        let left = &self.output.as_slice()[self.read..];
        let n = buf.len().min(left.len());
        buf[..n].copy_from_slice(&left[..n]);
        self.stamps[self.read..self.read + n].fill(written);
        self.read += n;
        n
    }

    fn has_no_room(&self, piece: &[u8]) -> bool
        ensures { IsTrue result ↔ HasNoRoom self.now piece.now }
    {
        !piece.is_empty() && self.written.left() == 0
    }

    /// Puts as many bytes as there is room for.
    fn write(&mut self, piece: &[u8]) -> usize
        ensures count { result ≡ min (length piece.now) (self.old.room - length self.old.written) }
        ensures moved { self.new ≡ after_write self.old (take result piece.now) }
    {
        let n = piece.len().min(self.written.left());
        self.written.put(&piece[..n]);
        n
    }

    /// Whether what is asked, each word with a line feed, fits.
    fn has_room_for(&self, limit: &str, own: &ChildWords) -> bool
        ensures { IsTrue result ↔ (length self.now.asked
            + length (lines (own.now.program.items
            ++ limit.now ∷ (own.now.words.items ++ own_file own.now.values))) ≤ self.now.room) }
    {
        let Some(left) = left_behind(self.asked.left(), &own.program) else {
            return false;
        };
        if limit.len() >= left {
            return false;
        }
        let Some(left) = left_behind(left - limit.len() - 1, &own.words) else {
            return false;
        };
        match &own.values {
            Some(values) => values.as_slice().len() + 1 < left,
            None => true,
        }
    }

    /// Keeps what is asked.
    fn ask(&mut self, limit: &str, own: &ChildWords)
        requires { length self.old.asked
            + length (lines (own.now.program.items
            ++ limit.now ∷ (own.now.words.items ++ own_file own.now.values))) ≤ self.old.room }
        ensures { self.new ≡ record self.old {
          asked = self.old.asked ++ lines (own.now.program.items
              ++ limit.now ∷ (own.now.words.items ++ own_file own.now.values));
          phase = 1;
        } }
    {
        self.asked.put_asked(&own.program, limit, &own.words);
        self.asked.put_values(&own.values);
        self.phase = 1;
    }

    fn finish(&mut self) -> u8
        ensures status { result ≡ self.old.status }
        ensures finished { self.new ≡ after_finish self.old }
    {
        self.phase = 2;
        self.status
    }
}

/// How many bytes are left of so many behind these words, each with a line feed.
fn left_behind(left: usize, words: &[Text]) -> Option<usize>
    ensures some { IfSome result (λ n. n + length (lines words.now) ≡ left) }
    ensures none { IfNone result (left < length (lines words.now)) }
{
    let mut left = left;
    for word in words {
        let size = word.as_str().len();
        if size >= left {
            return None;
        }
        left -= size + 1;
    }
    Some(left)
}

/// The limit as it is asked.
fn text_of(digits: &mut Buffer, limit: Option<u32>) -> &str
    ensures { result.now ≡ limit_word limit }
{
    match limit {
        Some(seconds) => digits.format(seconds),
        None => "",
    }
}

/// A spawner in memory. Each child's output and status stand from the start, and calls fail by their
/// numbers, which count over all roles. Starting a role without an output is always a fault.
#[derive(Debug, Drop)]
pub struct MemSpawner {
    children: Vec<MemChild>,
    calls: u64,
    fails: Vec<u32>,
    is_silence: bool,
}

impl Model for MemSpawner {
    ghost use Rattle.anb_stage.specs.Memory.{MemorySpawner};

    ghost Value = { MemorySpawner };

    ghost view = { λ s. record {
      children = s.children.items;
      calls = s.calls;
      fails = s.fails.items;
      is_silence = s.is_silence;
    } };
}

impl MemSpawner {
    /// A spawner that has started nothing. Each child has room for `room` bytes written and for as
    /// many bytes of what is asked of it; the memory is taken here. The calls whose numbers
    /// from 1 stand in `fails` answer `Failed`.
    pub fn new(
        alloc: Global,
        outputs: Vec<Bytes>,
        statuses: Vec<u8>,
        room: u32,
        fails: Vec<u32>,
    ) -> Result<Self, NoMemory>
        requires each { length statuses.items ≡ length outputs.items }
        requires few { length outputs.items ≤ 32 }
        ensures fresh { IfOk result (λ spawner.
            spawner ≡ fresh_spawner outputs.items statuses.items room fails.items) }
        ensures unstarted { IfOk result (λ spawner.
            (role : ℕ) → (child_at spawner role).phase ≡ 0) }
    {
        let mut children = Vec::new(alloc);
        for output in outputs {
            let status = statuses[children.len()];
            children.push(MemChild::new(alloc, output, status, room)?)?;
        }
        Ok(MemSpawner {
            children,
            calls: 0,
            fails,
            is_silence: false,
        })
    }

    /// From now on calls fail since their child is silent.
    pub fn fall_silent(&mut self)
        ensures { self.new ≡ record self.old { is_silence = true } }
    {
        self.is_silence = true;
    }

    /// How many roles have an output.
    pub fn roles(&self) -> usize
        ensures { result ≡ length self.now.children }
    {
        self.children.len()
    }

    /// What was written to a role's child.
    pub fn written(&self, role: u32) -> &[u8]
        requires { role < length self.now.children }
        ensures { result.now ≡ (child_at self.now role).written }
    {
        let child = &self.children[role as usize];
        child.written.bytes.as_slice()
    }

    /// What was asked of a role's child: the words of its program, where it isn't the spawner's own, the
    /// seconds for which it may be silent, which are empty where there is no limit, its words, and a NUL
    /// with the bytes of its own file, each with a line feed.
    pub fn asked(&self, role: u32) -> &[u8]
        requires { role < length self.now.children }
        ensures { result.now ≡ (child_at self.now role).asked }
    {
        let child = &self.children[role as usize];
        child.asked.bytes.as_slice()
    }

    /// When each byte of a role's output was read: how many had been written to all children by then.
    pub fn taken_at(&self, role: u32) -> &[usize]
        requires { role < length self.now.children }
        ensures { result.now ≡ (child_at self.now role).taken_at }
    {
        let child = &self.children[role as usize];
        &child.stamps[..child.read]
    }

    /// How many bytes are written to all children.
    fn written_to_all(&self) -> usize
        ensures { result ≡ written_to_all (children_of self.now) }
    {
        let mut all = 0;
        for role in 0..ROLES as usize {
            all += self.written_to(role);
        }
        all
    }

    /// How many bytes are written to a role's child.
    fn written_to(&self, role: usize) -> usize
        ensures length { result ≡ length (child_at self.now role).written }
        ensures most { result < 2 ^ 32 }
    {
        if role >= self.children.len() {
            return 0;
        }
        self.children[role].written.len()
    }

    /// Counts the call that comes now, and says whether it fails.
    fn next_fails(&mut self) -> bool
        ensures fails { result ≡ fails_after self.old.calls self.old.fails }
        ensures counted { self.new ≡ record self.old { calls = raised self.old.calls } }
    {
        self.calls = self.calls.saturating_add(1);
        let number = self.calls;
        self.fails.iter().any(|fails| u64::from(*fails) == number)
    }
}

impl Spawner for MemSpawner {
    ghost child = { children_of };

    fn start(&mut self, role: u32, limit: Option<u32>, own: &ChildWords) -> Result<(), Failed>
        ensures fails { IsErr result ↔ (IsDueToFail self.old ⊎ HasNoOutput self.old role
            ⊎ HasNoRoomForWords (child_at self.old role) limit own.now) }
        ensures failed { OnErr result
            (self.new ≡ with_child self.old role (failed_at self.old role)) }
        ensures started { OnOk result (self.new
            ≡ with_child self.old role (after_start (child_at self.old role) limit own.now)) }
        ensures never_falls { (child_at self.old role).faults ≤ (child_at self.new role).faults }
    {
        let fails = self.next_fails();
        let silent = self.is_silence;
        if role as usize >= self.children.len() {
            return Err(Failed);
        }
        let child = &mut self.children[role as usize];
        let mut digits = Buffer::new();
        let limit = text_of(&mut digits, limit);
        if fails || !child.has_room_for(limit, own) {
            return Err(child.fail(silent));
        }
        child.ask(limit, own);
        Ok(())
    }

    fn read(&mut self, role: u32, buf: &mut [u8]) -> Result<usize, Failed>
        requires running { (child_at self.old role).phase ≡ 1 }
        ensures fails { IsErr result ↔ IsDueToFail self.old }
        ensures failed { OnErr result
            (self.new ≡ with_child self.old role (failed_at self.old role)) }
        ensures count { IfOk result (λ n.
            n ≡ min (length buf.old) (length (child_at self.old role).left)) }
        ensures bytes { IfOk result (λ n.
            buf.new ≡ take n (child_at self.old role).left ++ drop n buf.old) }
        ensures moved { IfOk result (λ n. self.new ≡ with_child self.old role
            (after_read (child_at self.old role) (written_to_all (children_of self.old)) n)) }
        ensures end { IfOk result (λ n.
            0 < length buf.new → n ≡ 0 → (child_at self.old role).left ≡ []) }
        ensures never_falls { (child_at self.old role).faults ≤ (child_at self.new role).faults }
    {
        let fails = self.next_fails();
        let silent = self.is_silence;
        let written = self.written_to_all();
        let child = &mut self.children[role as usize];
        if fails {
            return Err(child.fail(silent));
        }
        Ok(child.read(written, buf))
    }

    fn write(&mut self, role: u32, piece: &[u8]) -> Result<usize, Failed>
        requires running { (child_at self.old role).phase ≡ 1 }
        ensures fails { IsErr result
            ↔ (IsDueToFail self.old ⊎ HasNoRoom (child_at self.old role) piece.now) }
        ensures failed { OnErr result
            (self.new ≡ with_child self.old role (failed_at self.old role)) }
        ensures count { IfOk result (λ n.
            let child = child_at self.old role in
            n ≡ min (length piece.now) (child.room - length child.written)) }
        ensures moved { IfOk result (λ n. self.new
            ≡ with_child self.old role (after_write (child_at self.old role) (take n piece.now))) }
        ensures some { IfOk result (λ n. 0 < length piece.now → 0 < n) }
        ensures never_falls { (child_at self.old role).faults ≤ (child_at self.new role).faults }
    {
        let fails = self.next_fails();
        let silent = self.is_silence;
        let child = &mut self.children[role as usize];
        if fails || child.has_no_room(piece) {
            return Err(child.fail(silent));
        }
        Ok(child.write(piece))
    }

    fn finish(&mut self, role: u32) -> Result<u8, Failed>
        requires running { (child_at self.old role).phase ≡ 1 }
        ensures fails { IsErr result ↔ IsDueToFail self.old }
        ensures failed { OnErr result
            (self.new ≡ with_child self.old role (failed_at self.old role)) }
        ensures status { IfOk result (λ n. n ≡ (child_at self.old role).status) }
        ensures finished { OnOk result
            (self.new ≡ with_child self.old role (after_finish (child_at self.old role))) }
        ensures never_falls { (child_at self.old role).faults ≤ (child_at self.new role).faults }
    {
        let fails = self.next_fails();
        let silent = self.is_silence;
        let child = &mut self.children[role as usize];
        if fails {
            return Err(child.fail(silent));
        }
        Ok(child.finish())
    }

    fn was_silent(&self, role: u32) -> bool {
        if role as usize >= self.children.len() {
            return false;
        }
        self.children[role as usize].silent
    }
}
