//! A sink in memory, of which the calls with given numbers fail.
//!
//! It holds at most `room` bytes, and a call takes at most `most`, which is at least 1. Its memory
//! is taken when it is made, so no later call wants any.
ghost use Rattle.std.specs.Prelude.{◌≡◌, ◌<◌, ◌↔◌, IfOk, IsErr};
ghost use Rattle.re_base.specs.Causes.{HasCause};
ghost use Rattle.re_base.specs.MemSink.{IsSinkInMemory, Refuses, after_put, count_of, empty_sink};

use crate::tally::Tally;
use crate::{Sink, SinkFailed};
use std::alloc::{AllocError, Global};
use std::marker::Model;

/// A sink that tells what it holds.
#[derive(Drop)]
pub struct MemSink {
    bytes: Vec<u8>,
    room: usize,
    most: usize,
    tally: Tally,
}

impl Model for MemSink {
    ghost use Rattle.std.specs.Prelude.{◌≤◌, vec_capacity};
    ghost use Rattle.re_base.specs.MemSink.{SinkInMemory, IsSinkInMemory, sink_in_memory};

    ghost Value = { SinkInMemory };

    ghost view = { λ sink. sink_in_memory sink.bytes.items sink.room sink.most sink.tally };

    ghost invariant = { λ sink.
        IsSinkInMemory (sink_in_memory sink.bytes.items sink.room sink.most sink.tally)
        × (sink.room ≤ vec_capacity sink.bytes) };
}

impl MemSink {
    /// An empty sink for at most `room` bytes, of which a call takes at most `most`. `fail` has the
    /// numbers of the calls that fail, from 0. Takes the memory for `room` bytes at once.
    pub fn new(
        alloc: Global,
        room: usize,
        most: usize,
        fail: Vec<u32>,
    ) -> Result<MemSink, AllocError>
        requires { 0 < most }
        ensures { IfOk result (λ sink. sink ≡ empty_sink room most fail.items) }
    {
        let bytes = Vec::with_capacity(alloc, room)?;
        Ok(MemSink {
            bytes,
            room,
            most,
            tally: Tally::new(fail),
        })
    }

    /// What has been put: at most as many bytes as there is room for.
    pub fn bytes(&self) -> &[u8]
        ensures bytes { result.now ≡ self.now.bytes }
        ensures formed { IsSinkInMemory self.now }
    {
        self.bytes.as_slice()
    }
}

impl Sink for MemSink {
    ghost use Rattle.std.specs.Prelude.{Some};

    ghost written = { λ sink. Some sink.bytes };

    ghost faults = { λ sink. sink.counts.faults };

    /// A call whose number is among the failing ones, or that can take nothing of a piece that is
    /// not empty, is a fault. Any other takes as much as it may. Takes no memory.
    fn put(&mut self, piece: &[u8]) -> Result<usize, SinkFailed>
        ensures refused { IsErr result ↔ Refuses self.old piece.now }
        ensures count { IfOk result (λ count. count ≡ count_of self.old piece.now) }
        ensures after { self.new ≡ after_put self.old piece.now result }

        // The count of faults never falls, and stands at its last value where it can't rise.
        ensures cause { HasCause self.old.counts.faults self.new.counts.faults result }
    {
        let fails = self.tally.is_call_failing();
        let left = self.room - self.bytes.len();
        let count = piece.len().min(self.most).min(left);
        if fails || (count == 0 && !piece.is_empty()) {
            self.tally.count_fault();
            return Err(SinkFailed);
        }
        self.bytes.extend_from_slice(&piece[..count]).unwrap();
        Ok(count)
    }
}
