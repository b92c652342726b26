//! Laws of two stations of which either may hear carefully, each the contract of a function that does nothing.

ghost use Rattle.lis_frame.specs.Limit.{IsLimit};
ghost use Rattle.lis_late_line.specs.Discipline.{on_each_enquiry, on_new_lines, on_quiet_lines};
ghost use Rattle.lis_careful_line.specs.Laws.{AreLineHistories, SafeBothWaysCarefully, AreLateHistories};
ghost use Rattle.lis_careful_line.specs.Laws.{SafeByRuleCarefully};

/// Whatever happens on a line between two stations, of which either or both hear carefully, could have happened between
/// two as the profile has them: where ENQ or EOT ends a session in silence, the receiver's timer ran out, its line was
/// closed, and what came was lost or came damaged; where a frame begins inside an unfinished one, it came damaged. So
/// in each direction each session is safe, over every list of events. At every limit on a frame's text.
pub fn safe_carefully_both_ways_of<const N: usize>()
    requires { IsLimit N }
    ensures history { AreLineHistories N }
    ensures safe { SafeBothWaysCarefully N }
{}

/// The same on a line that answers late, by each of the two rules for when a station may ask for it: `new_line` and
/// `quiet`, as `safe_both_ways_late_of` of `lis_late_line` has them.
pub fn safe_carefully_both_ways_late_of<const N: usize>()
    requires { IsLimit N }
    ensures new_line_history { AreLateHistories (on_new_lines on_each_enquiry) N }
    ensures quiet_history { AreLateHistories (on_quiet_lines on_each_enquiry) N }
    ensures new_line { SafeByRuleCarefully (on_new_lines on_each_enquiry) N }
    ensures quiet { SafeByRuleCarefully (on_quiet_lines on_each_enquiry) N }
{}
