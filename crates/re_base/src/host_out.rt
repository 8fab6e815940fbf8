//! A writer of the system, as a sink.
//!
//! Nothing is told of what it holds. Contracts see it as the count of its faults, which stops at
//! the last value of a u64. What is right of a writer whose bytes are known is a contract of its
//! own (`write_some`).
ghost use Rattle.std.specs.Prelude.{◌≡◌, ℕ, ◌<◌, ◌≤◌, None, length, IfOk};
ghost use Rattle.std.specs.Io.KnownBytes.{WriteAppends};
ghost use Rattle.re_base.specs.Causes.{HasCause, counted};

use crate::{Sink, SinkFailed};
use std::io::Write;
use std::marker::Model;

/// A sink over a writer. A write that is interrupted is a fault, as any other that takes nothing.
#[derive(Drop)]
pub struct HostOut<W> {
    inner: W,
    faults: u64,
}

impl<W> Model for HostOut<W> {
    ghost use Rattle.std.specs.Prelude.{ℕ};

    ghost Value = { ℕ };

    ghost view = { λ out. out.faults };
}

impl<W: Write> HostOut<W> {
    /// The sink over this writer, with no fault so far.
    pub fn new(inner: W) -> HostOut<W>
        ensures { result ≡ 0 }
    {
        HostOut { inner, faults: 0 }
    }
}

impl<W: Write> Sink for HostOut<W> {
    ghost written = { λ _. None };

    ghost faults = { λ faults. faults };

    /// One write.
    fn put(&mut self, piece: &[u8]) -> Result<usize, SinkFailed>
        ensures within { IfOk result (λ count. count ≤ length piece.now) }
        ensures some { IfOk result (λ count. 0 < length piece.now → 0 < count) }
        ensures after { self.new ≡ counted self.old result }

        // The count never falls, and stands at its last value where it can't rise.
        ensures cause { HasCause self.old self.new result }
    {
        let answer = write_some(&mut self.inner, piece);
        if answer.is_err() {
            self.faults = self.faults.saturating_add(1);
        }
        answer
    }
}

// Writes the first bytes of the piece, at least one where there is one, or nothing.
fn write_some<W: Write>(inner: &mut W, piece: &[u8]) -> Result<usize, SinkFailed>
    ensures within { IfOk result (λ count. count ≤ length piece.now) }
    ensures some { IfOk result (λ count. 0 < length piece.now → 0 < count) }
    ensures bytes { WriteAppends (W.contents inner.old) (W.contents inner.new) result piece.now }
{
    match inner.write(piece) {
        Ok(count) if count > 0 || piece.is_empty() => Ok(count),
        _ => Err(SinkFailed),
    }
}
