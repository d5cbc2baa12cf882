ghost use Rattle.std.specs.Prelude.{◌≡◌, ◌<◌, ◌+◌, ◌-◌, ◌^◌, min, length, IfOk, Ok, None};
ghost use Rattle.std.specs.Io.{WritesAtMost};
ghost use Rattle.std.specs.Io.KnownBytes.{WriteAppends};
ghost use Rattle.dsu_io.specs.Causes.{HasCause};

use crate::{Failed, Sink};
use std::marker::Model;

/// A sink that drops what it is given, never fails, and counts its bytes.
#[derive(Clone, Copy)]
pub struct NullSink {
    written: u64,
}

/// Contracts see it as the number of bytes that it was given.
impl Model for NullSink {
    ghost use Rattle.std.specs.Prelude.{ℕ};

    ghost Value = { ℕ };

    ghost view = { λ s. s.written };

    ghost inverse = { λ n. record { written = n } };
}

impl NullSink {
    pub fn new() -> NullSink
        ensures { result ≡ 0 }
    {
        NullSink { written: 0 }
    }

    /// How many bytes it was given; the number stops at 2^64 - 1.
    pub fn written(&self) -> u64
        ensures { result ≡ self.now }
    {
        self.written
    }
}

impl Default for NullSink {
    ghost is_default = { λ s. s ≡ 0 };

    fn default() -> NullSink {
        NullSink::new()
    }
}

impl Sink for NullSink {
    ghost told = { λ _. None };

    ghost faults = { λ _. 0 };

    fn write(&mut self, bytes: &[u8]) -> Result<usize, Failed>
        ensures bound { WritesAtMost result bytes.now }
        ensures progress { IfOk result (λ n. 0 < length bytes.now → 0 < n) }
        ensures bytes { WriteAppends None None result bytes.now }
        ensures cause { HasCause 0 0 result }

        ensures takes_all { result ≡ Ok (length bytes.now) }
        ensures counts { self.new ≡ min (self.old + length bytes.now) (2 ^ 64 - 1) }
    {
        self.written = self.written.saturating_add(bytes.len() as u64);
        Ok(bytes.len())
    }
}
