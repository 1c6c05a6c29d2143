ghost use Rattle.std.specs.Prelude.{◌≡◌, ◌<◌, ◌≤◌, ◌⊎◌, true, false, Some, [], length, IfOk, OnOk, OnErr, vec_capacity};
ghost use Rattle.std.specs.Io.KnownBytes.{WriteAppends};
ghost use Rattle.pb_io.specs.Faults.{HasCause};
ghost use Rattle.pb_io.specs.Sinks.{IsCountOf};

use crate::calls::{Calls, count_up};
use crate::{Failed, NoMemory, Sink};
use std::alloc::Global;

/// A sink in memory with limited room, whose calls can be told to fail.
#[derive(Drop)]
pub struct MemSink {
    room: usize,
    most: usize,
    taken: Vec<u8>,
    calls: Calls,
    faults: u64,
    ghost fits: { length taken.items ≤ room },
    ghost has_room: { room ≤ vec_capacity taken },
    ghost takes_some: { 1 ≤ most },
}

impl MemSink {
    ghost use Rattle.pb_io.specs.MemSink.{sink_taken, sink_room, sink_most, sink_fails, sink_calls, sink_faults};

    /// A sink that takes at most `most` bytes of a piece, and `room` bytes in all. Their memory is taken here.
    ///
    /// A piece with bytes is `Failed` where the room is full, and where its number among such pieces, counted from 0,
    /// is in `fails`. That number stays at 2^64 - 1.
    pub fn new(
        alloc: Global,
        room: usize,
        most: usize,
        fails: Vec<u64>,
    ) -> Result<MemSink, NoMemory>
        requires { 1 ≤ most }
        ensures taken { IfOk result (λ sink. sink_taken sink ≡ []) }
        ensures room { IfOk result (λ sink. sink_room sink ≡ room) }
        ensures most { IfOk result (λ sink. sink_most sink ≡ most) }
        ensures fails { IfOk result (λ sink. sink_fails sink ≡ fails.items) }
        ensures calls { IfOk result (λ sink. sink_calls sink ≡ 0) }
        ensures faults { IfOk result (λ sink. sink_faults sink ≡ 0) }
    {
        let taken = Vec::with_capacity(alloc, room)?;
        Ok(MemSink {
            room,
            most,
            taken,
            calls: Calls::new(fails),
            faults: 0,
        })
    }

    /// The bytes taken so far.
    pub fn taken(&self) -> &[u8]
        ensures { result.now ≡ sink_taken self.now }
    {
        &self.taken
    }
}

impl Sink for MemSink {
    ghost use Rattle.pb_io.specs.MemSink.{sink_taken, sink_faults, fitting_count, sink_fails_now, CountsPiece, KeepsSettings};

    ghost taken = { λ sink. Some (sink_taken sink) };

    ghost faults = { sink_faults };

    fn write(&mut self, piece: &[u8]) -> Result<usize, Failed>
        ensures count { IfOk result (IsCountOf piece.now) }
        ensures exact { IfOk result (λ n. n ≡ fitting_count self.old piece.now) }
        ensures bytes { WriteAppends (Some (sink_taken self.old)) (Some (sink_taken self.new)) result piece.now }
        ensures failed { OnErr result ((0 < length piece.now)
            × ((fitting_count self.old piece.now ≡ 0) ⊎ (sink_fails_now self.old ≡ true))) }
        ensures done { OnOk result (0 < length piece.now → sink_fails_now self.old ≡ false) }
        ensures counts { CountsPiece self.old self.new piece.now result }
        ensures cause { HasCause (sink_faults self.old) (sink_faults self.new) result }
        ensures settings { KeepsSettings self.old self.new }
    {
        if piece.is_empty() {
            return Ok(0);
        }
        if self.calls.next_fails() {
            count_up(&mut self.faults);
            return Err(Failed);
        }
        let free = self.room - self.taken.len();
        let count = piece.len().min(self.most).min(free);
        if count == 0 {
            count_up(&mut self.faults);
            return Err(Failed);
        }
        self.taken.extend_from_slice(&piece[..count]).unwrap();
        Ok(count)
    }
}
