//! Sinks that bytes are put into, piece by piece.
//!
//! What a sink holds may be told. It has a count of faults, which never falls.
ghost use Rattle.std.specs.Prelude.{ℕ, ◌<◌, ◌≤◌, List, Option, length, IfOk, OnOk, OnErr};
ghost use Rattle.std.specs.Io.KnownBytes.{Appends, WriteAppends};
ghost use Rattle.re_base.specs.Causes.{HasCause};
ghost use Rattle.re_base.specs.Told.{AppendsPrefix};

/// A sink took nothing of a piece, and the count of its faults rose.
#[derive(Clone, Copy, Debug, PartialEq, Eq)]
pub struct SinkFailed;

/// What bytes are appended to.
pub trait Sink {
    /// All bytes so far, where the object tells them.
    ghost written: { Self → Option (List ℕ) };

    /// How often the sink has failed.
    ghost faults: { Self → ℕ };

    /// Appends the first bytes of the piece, at least one where there is one, and says how many. A
    /// sink that takes nothing of a piece that is not empty has failed, and nothing was appended.
    fn put(&mut self, piece: &[u8]) -> Result<usize, SinkFailed>
        ensures within { IfOk result (λ count. count ≤ length piece.now) }
        ensures some { IfOk result (λ count. 0 < length piece.now → 0 < count) }
        ensures bytes { WriteAppends (written self.old) (written self.new) result piece.now }
        ensures cause { HasCause (faults self.old) (faults self.new) result };
}

/// Appends all of the text, and takes no memory. After a refusal a part of its front has been
/// appended.
pub fn put_all<S: Sink>(sink: &mut S, text: &[u8]) -> Result<(), SinkFailed>
    ensures all { OnOk result (Appends (S.written sink.old) (S.written sink.new) text.now) }

    // A refusal comes only from the sink, which is asked only while bytes are left.
    ensures part { OnErr result (AppendsPrefix (S.written sink.old) (S.written sink.new) text.now) }
    ensures cause { HasCause (S.faults sink.old) (S.faults sink.new) result }
    ensures left { OnErr result (0 < length text.now) }
{
    let mut done = 0;
    while done < text.len() {
        done += sink.put(&text[done..])?;
    }
    Ok(())
}
