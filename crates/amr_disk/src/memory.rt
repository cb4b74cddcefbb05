//! A disk in memory, which keeps its calls.
ghost use Rattle.std.specs.Prelude.{◌≡◌, ◌≤◌, ◌<◌, ◌+◌, ◌^◌, ◌-◌, true, drop, List, IfSome, [], ◌∷◌, ◌++◌, ◌&&◌, if◌then◌else◌, nat_le, nat_lt, Some};
ghost use Rattle.std.specs.Prelude.{None, length, min, max, not, is_ok, vec_len, vec_capacity, IfOk, OnOk, OnErr, IsTrue, option_map};
ghost use Rattle.std.specs.Io.{ReadsAtMost};
ghost use Rattle.amr_causes.specs.Causes.{HasCause, Rose};
ghost use Rattle.amr_disk.specs.Calls.{Synced, seen_after, left_after, LeavesAt};
ghost use Rattle.amr_disk.specs.Image.{placed, written_at, Torn, ReadsAt, Only};
ghost use Rattle.amr_disk.specs.Left.{part_of};
ghost use Rattle.amr_disk.specs.Limits.{is_refused, has_room, has_call, with_write};
ghost use Rattle.amr_disk.specs.Log.{calls_of, size_of, reach_of};
ghost use Rattle.amr_disk.specs.Moments.{Passes, Rests};

use crate::buffer::{append, copy_with_room, place, refill};
use crate::leave::{Leave, replay};
use crate::step::{Step, keep};
use crate::{Disk, DiskFault};
use amr_causes::NoMemory;
use std::alloc::Global;

/// A disk in memory. It fails at the calls of a list, from the call on at which it stops, and where its memory ends. All its memory is
/// taken when it is made. A write that fails by the list or the stop still counts as written: a stop may leave anything of it. One that
/// has no room is refused before any of it is written, so nothing of it is pending.
#[derive(Drop)]
pub struct MemDisk {
    made: Vec<u8>,
    bytes: Vec<u8>,
    written: Vec<u8>,
    steps: Vec<Step>,
    capacity: usize,
    calls: usize,
    fails: Vec<u64>,
    stop: Option<u64>,
    asked: u64,
    faults: u64,
    ghost replayed: { bytes.items ≡ seen_after made.items (calls_of steps.items written.items) },
    ghost whole: { size_of steps.items ≡ vec_len written },
    ghost within: { reach_of steps.items ≤ capacity },
    ghost made_fits: { vec_len made ≤ capacity },
    ghost bytes_fit: { vec_len bytes ≤ capacity },
    ghost made_room: { capacity ≤ vec_capacity made },
    ghost bytes_room: { capacity ≤ vec_capacity bytes },
    ghost written_room: { capacity ≤ vec_capacity written },
    ghost steps_room: { calls ≤ vec_capacity steps },
}

impl MemDisk {
    ghost use Rattle.amr_disk.specs.Memory.{limits_of, asked_of, made_of, calls_in, fits_in, seen_of, moment_of, leaves_of, faults_of};

    /// A disk that holds these bytes, all of them synced.
    ///
    /// `capacity` is the greatest length that its bytes may reach (at least that of `bytes`), and as many bytes may be written in all its
    /// calls. It takes `calls` writes and syncs. Its calls, reads too, are counted from 1: those of `fails` fail, and from `stop` on all.
    pub fn make(
        alloc: Global,
        bytes: &[u8],
        capacity: u64,
        calls: u64,
        fails: &[u64],
        stop: Option<u64>,
    ) -> Result<MemDisk, NoMemory>
        ensures told { IfOk result (λ d. seen_of d ≡ Some bytes.now) }
        ensures made { IfOk result (λ d. made_of d ≡ bytes.now) }
        ensures settled { IfOk result (λ d. Only (seen_of d) (leaves_of d (moment_of d))) }
        ensures faultless { IfOk result (λ d. faults_of d ≡ 0) }
        ensures unasked { IfOk result (λ d. asked_of d ≡ 0) }
        ensures idle { IfOk result (λ d. calls_in d ≡ []) }
        ensures limits { IfOk result (λ d. limits_of d
            ≡ record { capacity = max capacity (length bytes.now); calls = calls; fails = fails.now; stop = stop }) }
    {
        let capacity = (capacity as usize).max(bytes.len());
        Ok(MemDisk {
            made: copy_with_room(alloc, bytes, capacity)?,
            bytes: copy_with_room(alloc, bytes, capacity)?,
            written: Vec::with_capacity(alloc, capacity)?,
            steps: Vec::with_capacity(alloc, calls as usize)?,
            capacity,
            calls: calls as usize,
            fails: fails.to_vec(alloc)?,
            stop,
            asked: 0,
            faults: 0,
        })
    }

    /// The disk after a stop: it reads one of the images that the stop may leave, all of it synced, and fails no more but for room.
    /// Old and New leave each write that no sync followed undone or done; Filled leaves its byte in each of their ranges.
    pub fn leave(self, mode: Leave) -> MemDisk
        ensures image { seen_of result ≡ Some (left_after (part_of mode) (made_of self) (made_of self) (calls_in self)) }
        ensures made { seen_of result ≡ Some (made_of result) }
        ensures possible { IfSome (seen_of result) (leaves_of self (moment_of self)) }
        ensures settled { Only (seen_of result) (leaves_of result (moment_of result)) }
        ensures faultless { faults_of result ≡ 0 }
        ensures unasked { asked_of result ≡ 0 }
        ensures idle { calls_in result ≡ [] }
        ensures limits { limits_of result ≡ record { capacity = (limits_of self).capacity; calls = (limits_of self).calls; fails = []; stop = None } }
    {
        let MemDisk {
            mut made,
            mut bytes,
            mut written,
            mut steps,
            capacity,
            calls,
            mut fails,
            stop: _,
            asked: _,
            faults: _,
        } = self;
        refill(&mut bytes, &made);
        let mut start = 0;
        for step in &steps {
            start = replay(mode, *step, &written, start, &mut made, &mut bytes);
        }
        refill(&mut made, &bytes);
        written.clear();
        steps.clear();
        fails.clear();
        MemDisk {
            made,
            bytes,
            written,
            steps,
            capacity,
            calls,
            fails,
            stop: None,
            asked: 0,
            faults: 0,
        }
    }

    // Counts a call, and says whether it is to fail.
    fn refuses(&mut self) -> bool
        ensures refused { result ≡ is_refused (limits_of self.old) (asked_of self.new) }
        ensures counted { asked_of self.new ≡ min (asked_of self.old + 1) (2 ^ 64 - 1) }
        ensures calls { calls_in self.new ≡ calls_in self.old }
        ensures made { made_of self.new ≡ made_of self.old }
        ensures seen { seen_of self.new ≡ seen_of self.old }
        ensures limits { limits_of self.new ≡ limits_of self.old }
        ensures faults { faults_of self.new ≡ faults_of self.old }
    {
        self.asked = self.asked.saturating_add(1);
        let asked = self.asked;
        let stopped = match self.stop {
            Some(stop) => stop <= asked,
            None => false,
        };
        self.fails.as_slice().contains(&asked) || stopped
    }

    // Counts a fault.
    fn fault(&mut self) -> DiskFault
        ensures counted { faults_of self.new ≡ min (faults_of self.old + 1) (2 ^ 64 - 1) }
        ensures later { faults_of self.old ≤ faults_of self.new }
        ensures rose { Rose (faults_of self.old) (faults_of self.new) }
        ensures asked { asked_of self.new ≡ asked_of self.old }
        ensures calls { calls_in self.new ≡ calls_in self.old }
        ensures made { made_of self.new ≡ made_of self.old }
        ensures seen { seen_of self.new ≡ seen_of self.old }
        ensures limits { limits_of self.new ≡ limits_of self.old }
    {
        self.faults = self.faults.saturating_add(1);
        DiskFault
    }

    // Whether there is room for a write.
    fn fits(&self, at: usize, len: usize) -> bool
        requires small { at + len < 2 ^ 48 }
        ensures { result ≡ fits_in self.now at len }
    {
        at + len <= self.capacity
            && self.written.len() + len <= self.capacity
            && self.steps.len() < self.calls
    }

    // Takes a write, where there is room for it.
    fn note(&mut self, at: usize, chunk: &[u8]) -> bool
        requires small { at + length chunk.now < 2 ^ 48 }
        ensures taken { result ≡ has_room (limits_of self.old) (calls_in self.old) at chunk.now }
        ensures log { calls_in self.new ≡ with_write (limits_of self.old) (calls_in self.old) at chunk.now }
        ensures made { made_of self.new ≡ made_of self.old }
        ensures limits { limits_of self.new ≡ limits_of self.old }
        ensures asked { asked_of self.new ≡ asked_of self.old }
        ensures faults { faults_of self.new ≡ faults_of self.old }
        ensures seen { result ≡ true → seen_of self.new ≡ option_map (written_at at chunk.now) (seen_of self.old) }
    {
        let len = chunk.len();
        if len == 0 {
            return true;
        }
        if !self.fits(at, len) {
            return false;
        }
        append(&mut self.written, chunk);
        keep(&mut self.steps, Step::Write { at, len });
        place(&mut self.bytes, at, chunk);
        true
    }

    // Takes a sync, where there is room for it.
    fn note_sync(&mut self) -> bool
        ensures taken { result ≡ has_call (limits_of self.old) (calls_in self.old) }
        ensures log { calls_in self.new ≡ (if result then calls_in self.old ++ Synced ∷ [] else calls_in self.old) }
        ensures made { made_of self.new ≡ made_of self.old }
        ensures limits { limits_of self.new ≡ limits_of self.old }
        ensures asked { asked_of self.new ≡ asked_of self.old }
        ensures faults { faults_of self.new ≡ faults_of self.old }
        ensures seen { seen_of self.new ≡ seen_of self.old }
    {
        if self.steps.len() >= self.calls {
            return false;
        }
        keep(&mut self.steps, Step::Sync);
        true
    }
}

impl Disk for MemDisk {
    ghost use Rattle.amr_disk.specs.Memory.{StaysAsMade, limits_of, asked_of, made_of, calls_in, seen_of, moment_of, leaves_of, faults_of};
    ghost use Rattle.amr_disk.specs.Replay.{reads_image};

    ghost seen = { seen_of };

    ghost moment = { moment_of };

    ghost leaves = { leaves_of };

    ghost faults = { faults_of };

    ghost reads_image = { λ d s is. reads_image (made_of d) d.bytes.items (calls_in d) s d.replayed is };

    fn read_at(&mut self, at: u64, into: &mut [u8]) -> Result<usize, DiskFault>
        requires { at + length into.old < 2 ^ 48 }
        ensures bound { ReadsAtMost result into.new }
        ensures bytes { IfOk result (ReadsAt (seen_of self.old) at into.new) }
        ensures seen { seen_of self.new ≡ seen_of self.old }
        ensures images { Rests (seen_of self.old) (moment_of self.old) (moment_of self.new) (leaves_of self.old) (leaves_of self.new) }
        ensures cause { HasCause (faults_of self.old) (faults_of self.new) result }
        ensures no_fault { OnOk result (faults_of self.new ≡ faults_of self.old) }
        ensures one_fault { OnErr result (faults_of self.new ≡ min (faults_of self.old + 1) (2 ^ 64 - 1)) }
        ensures answer { is_ok result ≡ not (is_refused (limits_of self.old) (asked_of self.new)) }
        ensures counted { asked_of self.new ≡ min (asked_of self.old + 1) (2 ^ 64 - 1) }
        ensures calls { calls_in self.new ≡ calls_in self.old }
        ensures made { StaysAsMade self.old self.new }
        ensures replayed { seen_of self.new ≡ Some (seen_after (made_of self.new) (calls_in self.new)) }
    {
        if self.refuses() {
            return Err(self.fault());
        }
        let from = (at as usize).min(self.bytes.len());
        let rest = &self.bytes[from..];
        let n = into.len().min(rest.len());
        into[..n].copy_from_slice(&rest[..n]);
        Ok(n)
    }

    fn write_at(&mut self, at: u64, bytes: &[u8]) -> Result<(), DiskFault>
        requires { at + length bytes.now < 2 ^ 48 }
        ensures seen { OnOk result (seen_of self.new ≡ option_map (written_at at bytes.now) (seen_of self.old)) }
        ensures images { Passes (moment_of self.old) (moment_of self.new) (leaves_of self.old) (leaves_of self.new) (Torn at (length bytes.now)) }
        ensures cause { HasCause (faults_of self.old) (faults_of self.new) result }
        ensures no_fault { OnOk result (faults_of self.new ≡ faults_of self.old) }
        ensures one_fault { OnErr result (faults_of self.new ≡ min (faults_of self.old + 1) (2 ^ 64 - 1)) }
        ensures answer { is_ok result ≡
            (not (is_refused (limits_of self.old) (asked_of self.new)) && has_room (limits_of self.old) (calls_in self.old) at bytes.now) }
        ensures counted { asked_of self.new ≡ min (asked_of self.old + 1) (2 ^ 64 - 1) }
        ensures calls { calls_in self.new ≡ with_write (limits_of self.old) (calls_in self.old) at bytes.now }
        ensures made { StaysAsMade self.old self.new }
        ensures replayed { seen_of self.new ≡ Some (seen_after (made_of self.new) (calls_in self.new)) }
    {
        let refused = self.refuses();
        let taken = self.note(at as usize, bytes);
        if refused || !taken {
            return Err(self.fault());
        }
        Ok(())
    }

    fn sync(&mut self) -> Result<(), DiskFault>
        ensures seen { seen_of self.new ≡ seen_of self.old }
        ensures durable { OnOk result (Only (seen_of self.old) (leaves_of self.new (moment_of self.new))) }
        ensures images { Rests (seen_of self.old) (moment_of self.old) (moment_of self.new) (leaves_of self.old) (leaves_of self.new) }
        ensures cause { HasCause (faults_of self.old) (faults_of self.new) result }
        ensures no_fault { OnOk result (faults_of self.new ≡ faults_of self.old) }
        ensures one_fault { OnErr result (faults_of self.new ≡ min (faults_of self.old + 1) (2 ^ 64 - 1)) }
        ensures answer { is_ok result ≡ (not (is_refused (limits_of self.old) (asked_of self.new)) && has_call (limits_of self.old) (calls_in self.old)) }
        ensures counted { asked_of self.new ≡ min (asked_of self.old + 1) (2 ^ 64 - 1) }
        ensures calls { calls_in self.new ≡ (if is_ok result then calls_in self.old ++ Synced ∷ [] else calls_in self.old) }
        ensures made { StaysAsMade self.old self.new }
        ensures replayed { seen_of self.new ≡ Some (seen_after (made_of self.new) (calls_in self.new)) }
    {
        if self.refuses() {
            return Err(self.fault());
        }
        if !self.note_sync() {
            return Err(self.fault());
        }
        Ok(())
    }
}
