ghost use Rattle.std.specs.Prelude.{◌≡◌, ◌≢◌, ◌<◌, ℕ, MatchOption};
ghost use Rattle.lis_record_write.specs.declared.faults.WriteFault.TheVariants as write_faults;

use lis_record::WriteFault;
use thiserror::Error;

/// A record that wasn't written, by its number in its message, and why.
#[derive(Clone, Copy, Debug, PartialEq, Eq, Error)]
#[error("record {place}: {fault}")]
pub struct MessageWriteFault {
    /// The number of the record in its message, from 1 for the header's. It stays at the greatest number.
    pub place: u64,
    pub fault: WriteFault,
}

impl MessageWriteFault {
    /// Where `write_message_from` writes on after a sink that failed: the place of the record, and how many bytes of
    /// it are out. None where no sink failed, or the place is the greatest number.
    pub fn resume(&self) -> Option<(u64, u64)>
        ensures { MatchOption result
            (self.now.place < 18446744073709551615 → (count : ℕ) → self.now.fault ≢ write_faults.Io count)
            (λ rest. (rest.0 ≡ self.now.place) × (self.now.fault ≡ write_faults.Io rest.1)
            × (self.now.place < 18446744073709551615)) }
    {
        match self.fault {
            WriteFault::Io(count) if self.place < u64::MAX => Some((self.place, count)),
            _ => None,
        }
    }
}
