//! The laws of the link, each the contract of a function that does nothing.

ghost use Rattle.lis_frame.specs.Limit.{IsLimit};
ghost use Rattle.lis_world.specs.Safe.{AlwaysSafe};
ghost use Rattle.lis_world.specs.Late.{SafeWhere, UnsafeWhere, is_empty, is_quiet, is_answered};
ghost use Rattle.lis_world.specs.Late.{at_any_time, has_no_reply, has_no_unit};
ghost use Rattle.lis_world.specs.LateDiscipline.{SafeOnNewLines};
ghost use Rattle.lis_world.specs.LateRecovery.{CarriesOnNewLine, CarriesOnNewLines};
ghost use Rattle.lis_world.specs.Progress.{RunsQuietly, CarriesThrough};
ghost use Rattle.lis_world.specs.Recovery.{OvercomesLoss, Recovers, RecoversQuietly};

/// Over every list of events each session is safe: what was accepted was sent, what was
/// acknowledged was accepted, and what was delivered are the session's texts, whole and in order;
/// all of them, where the session is done. At every limit on a frame's text.
pub fn safe_of<const N: usize>()
    requires { IsLimit N }
    ensures { AlwaysSafe N }
{}

/// The same with the usual limit on a frame's text.
pub fn safe()
    ensures { AlwaysSafe 240 }
{}

/// The same on a line that answers late: there a reply that comes after the sender's timer or restart is delivered like
/// any other, in whatever phase the sender then is, and the line may be connected anew. Each session is safe by each
/// of these rules. `empty`: sessions start only while the link holds no unit and no reply. `quiet`: only while it holds
/// no reply and no unit but EOT, which nobody answers. `answered`: after a session that timed out or was restarted only
/// while the link is quiet, else at any time. `new_line`: after such a session the line is connected anew before the
/// next start; a program can keep this without seeing the link. By the last two rules, a process that is new on an old
/// line counts as restarted. At every limit on a frame's text.
pub fn safe_on_quiet_starts_of<const N: usize>()
    requires { IsLimit N }
    ensures empty { SafeWhere is_empty N }
    ensures quiet { SafeWhere is_quiet N }
    ensures answered { SafeWhere is_answered N }
    ensures new_line { SafeOnNewLines N }
{}

/// The same with the usual limit on a frame's text.
pub fn safe_on_quiet_starts()
    ensures empty { SafeWhere is_empty 240 }
    ensures quiet { SafeWhere is_quiet 240 }
    ensures answered { SafeWhere is_answered 240 }
    ensures new_line { SafeOnNewLines 240 }
{}

/// These rules are needed. If sessions start on that line at any time, or whenever no reply is on it, or whenever no
/// unit is, some session is not safe: a late ACK acknowledges a frame that the receiver never took.
pub fn unsafe_on_early_starts()
    ensures any_time { UnsafeWhere at_any_time 240 }
    ensures unit { UnsafeWhere has_no_reply 240 }
    ensures reply { UnsafeWhere has_no_unit 240 }
{}

/// On an undisturbed link a session whose start isn't rejected is done after as many rounds as it
/// has frames: everything was sent, accepted, acknowledged and delivered, and both ends are
/// neutral. At every limit on a frame's text.
pub fn runs_quietly_of<const N: usize>()
    requires { IsLimit N }
    ensures { RunsQuietly N }
{}

/// The same with the usual limit on a frame's text.
pub fn runs_quietly()
    ensures { RunsQuietly 240 }
{}

/// On a link that is disturbed in ways that are noticed, a session is carried through if enough
/// rounds are undisturbed and no six disturbed ones are in a row. At every limit on a frame's
/// text.
pub fn carries_through_of<const N: usize>()
    requires { IsLimit N }
    ensures { CarriesThrough N }
{}

/// The same with the usual limit on a frame's text.
pub fn carries_through()
    ensures { CarriesThrough 240 }
{}

/// No state of the two ends blocks the line for good: after whatever events, once the sender was restarted or its timer
/// ran out twice, each unit on its way has come or was lost, and the receiver is ready, a session is carried
/// through if it has enough rounds, and an undisturbed one is (LIS01-A2, 6.2 to 6.6). At every limit on a frame's text.
pub fn recovers_of<const N: usize>()
    requires { IsLimit N }
    ensures enough { Recovers N }
    ensures undisturbed { RecoversQuietly N }
{}

/// The same with the usual limit on a frame's text.
pub fn recovers()
    ensures enough { Recovers 240 }
    ensures undisturbed { RecoversQuietly 240 }
{}

/// No state of the two ends blocks a line that answers late for good: after whatever events, once the sender was
/// restarted and the line is connected anew, a session is carried through if it has enough rounds. This holds under
/// each of the rules by which sessions are safe. At every limit on a frame's text.
pub fn carries_on_new_line_of<const N: usize>()
    requires { IsLimit N }
    ensures empty { CarriesOnNewLine is_empty N }
    ensures quiet { CarriesOnNewLine is_quiet N }
    ensures answered { CarriesOnNewLine is_answered N }
    ensures new_line { CarriesOnNewLines N }
{}

/// The same with the usual limit on a frame's text.
pub fn carries_on_new_line()
    ensures empty { CarriesOnNewLine is_empty 240 }
    ensures quiet { CarriesOnNewLine is_quiet 240 }
    ensures answered { CarriesOnNewLine is_answered 240 }
    ensures new_line { CarriesOnNewLines 240 }
{}

/// Where the sender awaits the reply to the one unit on the link, and that ENQ or frame is lost or comes as bytes that
/// give no signal, or the reply is lost, nothing but the sender's timer and its restart ends the wait. The timer ends
/// the session as timed out, with what was acknowledged before, and with an EOT; once that has come or was lost too,
/// and the receiver is ready, the next session is carried through (LIS01-A2, 6.5 and 6.6). At every limit on a frame's
/// text.
pub fn overcomes_loss_of<const N: usize>()
    requires { IsLimit N }
    ensures { OvercomesLoss N }
{}

/// The same with the usual limit on a frame's text.
pub fn overcomes_loss()
    ensures { OvercomesLoss 240 }
{}
