ghost use Rattle.std.specs.Prelude.{◌≡◌, ◌+◌, ◌-◌, ◌^◌, min, None, length};

use crate::{Failed, Sink};

/// A sink that takes every piece whole, never fails, and keeps only how many bytes it took.
#[derive(Drop)]
pub struct SureSink {
    count: u64,
}

impl SureSink {
    ghost use Rattle.pb_io.specs.SureSink.{sure_count};

    /// A sink that has taken nothing. Takes no memory.
    pub fn new() -> SureSink
        ensures { sure_count result ≡ 0 }
    {
        SureSink { count: 0 }
    }

    /// How many bytes were taken. The number stays at 2^64 - 1.
    pub fn count(&self) -> u64
        ensures { result ≡ sure_count self.now }
    {
        self.count
    }
}

impl Sink for SureSink {
    ghost use Rattle.pb_io.specs.SureSink.{sure_count};

    ghost taken = { λ _. None };

    ghost faults = { λ _. 0 };

    fn write(&mut self, piece: &[u8]) -> Result<usize, Failed>
        ensures whole { result ≡ Ok (length piece.now) }
        ensures counts { sure_count self.new ≡ min (sure_count self.old + length piece.now) (2 ^ 64 - 1) }
    {
        self.count = self.count.saturating_add(piece.len() as u64);
        Ok(piece.len())
    }
}
