//! Checking a capture: whether the computer answered as a receiver does.

ghost use Rattle.std.specs.Prelude.{IfErr, IfOk};
ghost use Rattle.uses.specs.Played.{WasNotPlayed, WasPlayed};

use lis_port::{Discard, InMemory};
use lis_run::{ToolFault, run_replay};
use std::alloc::Global;

/// Whether each reply in a capture is the one that a receiver gives. A line that says nothing is reported by its
/// number.
pub fn is_as_played(alloc: Global, capture: &[u8]) -> Result<bool, ToolFault>
    ensures ok { IfOk result (WasPlayed capture.now) }
    ensures err { IfErr result (WasNotPlayed capture.now) }
{
    let mut source = InMemory::new(capture);
    let report = run_replay(alloc, &mut source, &mut Discard, u32::MAX)?;
    Ok(report.status == 0)
}
