//! The sink for bytes that nobody wants.

ghost use Rattle.std.specs.Prelude.{◌≡◌, ◌<◌, None, Ok, false, length};

use crate::port::{Failed, Sink};

/// A sink that takes all bytes and keeps none. It never fails.
#[derive(Drop)]
pub struct Discard;

impl Sink for Discard {
    ghost taken = { λ s. None };

    ghost sent = { λ s. None };

    ghost failed = { λ s. false };

    fn write(&mut self, bytes: &[u8]) -> Result<usize, Failed>
        requires some { 0 < length bytes.now }
        ensures answer { result ≡ Ok (length bytes.now) }
    {
        Ok(bytes.len())
    }

    fn flush(&mut self) -> Result<(), Failed>
        ensures answer { result ≡ Ok (record {}) }
    {
        Ok(())
    }

    fn failed(&self) -> bool {
        false
    }
}
