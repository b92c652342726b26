//! Laws of captures, each the contract of a function that does nothing.

ghost use Rattle.lis_capture.specs.Laws.{NumbersAreExact, RefusedForGood, ReportsNoMore, UpgradedIsRead};

/// The lines of a capture and the bytes that they report are together no more than its bytes: so who
/// counts them in 64 bits loses none.
pub fn reports_no_more()
    ensures { ReportsNoMore }
{}

/// The number that a reader reports is that of its last line, of a rejected one too, as long as fewer than
/// 2^64 - 1 bytes were read.
pub fn numbers_are_exact()
    ensures { NumbersAreExact }
{}

/// After a rejected line nothing is said, whatever follows.
pub fn refused_for_good()
    ensures { RefusedForGood }
{}

/// The lines of a capture that has no rejected line, written as one of version 2, are read as these
/// lines; written so again they are the same text.
pub fn upgraded_is_read()
    ensures { UpgradedIsRead }
{}
