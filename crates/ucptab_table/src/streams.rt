//! The streams that a table is read from and its lines are written to.
ghost use Rattle.std.specs.Prelude.{◌≡◌, ℕ, ◌+◌, ◌<◌, List, Option, None, length, take, IfOk, IfErr};
ghost use Rattle.std.specs.Io.{ReadsAtMost};
ghost use Rattle.std.specs.Io.KnownBytes.{Appends, Consumes, IsAtEnd};

use crate::error::RowError;

/// A read or a write failed.
#[derive(Clone, Copy, Debug, PartialEq, Eq)]
pub struct Failed;

/// A stream to read from.
pub trait Source {
    /// The bytes that reads will return from here on, if they are known.
    ghost remaining: { Self → Option (List ℕ) } = { λ _. None };

    /// How many reads failed.
    ghost failures: { Self → ℕ };

    /// Fills a prefix of `buf`, and returns its length. If `buf` is not empty, 0 means the end of
    /// the stream.
    ///
    /// # Errors
    /// Returns [`Failed`] if the read fails. It may have lost bytes.
    fn read(&mut self, buf: &mut [u8]) -> Result<usize, Failed>
        ensures bound { ReadsAtMost result buf.new }
        ensures bytes { IfOk result
            (λ n. Consumes (remaining self.old) (remaining self.new) (take n buf.new)) }
        ensures end { IfOk result (λ n. n ≡ 0 → 0 < length buf.new → IsAtEnd (remaining self.new)) }
        ensures read { IfOk result (λ _. failures self.new ≡ failures self.old) }
        ensures failed { IfErr result (λ _. failures self.new ≡ failures self.old + 1) };

    /// Is called with the first line that is not a row, its number, counted from 1, and its fault.
    /// What is left to read stays the same.
    fn note_fault(&mut self, number: u64, line: &[u8], fault: RowError)
        ensures remaining { remaining self.new ≡ remaining self.old }
        ensures failures { failures self.new ≡ failures self.old };
}

/// A stream to write to.
pub trait Sink {
    /// The bytes that were written, if they are known.
    ghost contents: { Self → Option (List ℕ) } = { λ _. None };

    /// How many writes failed.
    ghost failures: { Self → ℕ };

    /// Writes all of `buf`.
    ///
    /// # Errors
    /// Returns [`Failed`] if the write fails. Any prefix of `buf` may have been written.
    fn write(&mut self, buf: &[u8]) -> Result<(), Failed>
        ensures bytes { IfOk result
            (λ _. Appends (contents self.old) (contents self.new) buf.now) }
        ensures written { IfOk result (λ _. failures self.new ≡ failures self.old) }
        ensures failed { IfErr result (λ _. failures self.new ≡ failures self.old + 1) };
}
