//! Laws of two stations on a line that answers late, each the contract of a function that does nothing.

ghost use Rattle.lis_frame.specs.Limit.{IsLimit};
ghost use Rattle.lis_late_line.specs.Discipline.{SafeByRule, UnsafeFor, on_new_lines, on_quiet_lines};
ghost use Rattle.lis_late_line.specs.Discipline.{on_each_enquiry, on_each_start, on_each_wait, but_after_nak};

/// Two stations on one line that answers late: a reply that comes after the timer of its sender, after its wait or
/// after a restart is delivered like any other, in whatever state the station then is, and the line may be connected
/// anew. In each direction each session is safe, whatever else happens, by each of two rules. They are for every ENQ,
/// of a start or after a wait, but the first one after a session that ended as done or after six tries. `new_line`: the
/// line was connected anew since the station's last ENQ; a program can keep this without seeing the line. `quiet`: no
/// reply is on its way to the station, and nothing of its own but EOT. A process that is new on an old line counts as
/// restarted. At every limit on a frame's text.
pub fn safe_both_ways_late_of<const N: usize>()
    requires { IsLimit N }
    ensures new_line { SafeByRule (on_new_lines on_each_enquiry) N }
    ensures quiet { SafeByRule (on_quiet_lines on_each_enquiry) N }
{}

/// The same with the usual limit on a frame's text.
pub fn safe_both_ways_late()
    ensures new_line { SafeByRule (on_new_lines on_each_enquiry) 240 }
    ensures quiet { SafeByRule (on_quiet_lines on_each_enquiry) 240 }
{}

/// Each of these ENQ needs such a rule: some session is not safe if either rule is kept for those of starts alone
/// (`waits`), for those after a wait alone (`starts`), or for all but those after NAK (`nak`): what came as NAK may
/// have been the other side's ENQ.
pub fn unsafe_on_old_lines()
    ensures waits { UnsafeFor on_each_start 240 }
    ensures starts { UnsafeFor on_each_wait 240 }
    ensures nak { UnsafeFor but_after_nak 240 }
{}
