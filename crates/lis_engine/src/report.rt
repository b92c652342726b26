//! How a run ended.

ghost use Rattle.std.specs.Prelude.{◌≡◌, None, IfOk, OnErr, if◌then◌else◌};

use crate::fault::ToolFault;

/// How a run ended that read its input to the end, or to what its command rejected.
#[derive(Debug, Clone, Copy, PartialEq, Eq)]
pub struct Report<F> {
    /// 0, or 1 where there is something to look at.
    pub status: u8,
    /// What was rejected; none if the input was read to its end.
    pub refused: Option<F>,
}

/// How a run ended: with its report, or by a fault.
pub type Ended<F> = Result<Report<F>, ToolFault>;

/// The exit status for a run that ended so: its report's, or 3 where it stopped before its end.
pub fn status_of<F>(ended: &Ended<F>) -> u8
    ensures report { IfOk ended.now (λ report. result ≡ report.status) }
    ensures fault { OnErr ended.now (result ≡ 3) }
{
    match ended {
        Ok(report) => report.status,
        Err(_) => 3,
    }
}

impl<F> Report<F> {
    /// The report of a run that read its input to the end, by whether it found something to look at.
    pub fn of(found: bool) -> Report<F>
        ensures { result ≡ record { status = if found then 1 else 0; refused = None } }
    {
        Report {
            status: if found { 1 } else { 0 },
            refused: None,
        }
    }
}
