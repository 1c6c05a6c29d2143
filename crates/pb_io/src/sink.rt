ghost use Rattle.std.specs.Prelude.{◌≡◌, ℕ, List, Option, length, IsOk, IfOk};
ghost use Rattle.std.specs.Io.KnownBytes.{WriteAppends};
ghost use Rattle.pb_io.specs.Faults.{HasCause};
ghost use Rattle.pb_io.specs.Sinks.{IsCountOf};

use crate::Failed;

/// What takes bytes.
pub trait Sink {
    // The bytes taken so far, where the sink tells them.
    ghost taken: { Self → Option (List ℕ) };

    // The number of failed calls, which stays at 2 ^ 64 - 1 once it is there.
    ghost faults: { Self → ℕ };

    /// Takes some first bytes of the piece, and gives their number: at least one where the piece has any.
    ///
    /// `Failed` comes only at a piece with bytes and where the count of faults rose, and then nothing was taken.
    fn write(&mut self, piece: &[u8]) -> Result<usize, Failed>
        ensures count { IfOk result (IsCountOf piece.now) }
        ensures empty { length piece.now ≡ 0 → IsOk result }
        ensures bytes { WriteAppends (taken self.old) (taken self.new) result piece.now }
        ensures cause { HasCause (faults self.old) (faults self.new) result };
}
