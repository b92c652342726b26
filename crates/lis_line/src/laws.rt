//! Laws of progress on a line between two stations, each the contract of a function that does nothing.

ghost use Rattle.lis_frame.specs.Limit.{IsLimit};
ghost use Rattle.lis_line.specs.Progress.{CarriesOne, CarriesBoth, BecomesCalm};

/// On a calm line, after whatever events, a session of one side alone is done, if enough rounds of a frame and its
/// reply are undisturbed, and never six disturbed ones are in a row. At every limit on a frame's text.
pub fn carries_one_of<const N: usize>()
    requires { IsLimit N }
    ensures { CarriesOne N }
{}

/// On a calm line, after whatever events, both stations ask for the line at once, and the analyzer's timer runs out
/// first: the analyzer's session is done first, and then the computer's, if enough rounds of each are undisturbed. At
/// every limit on a frame's text.
pub fn carries_both_of<const N: usize>()
    requires { IsLimit N }
    ensures { CarriesBoth N }
{}

/// No state of two stations blocks their line for good: after whatever events, once both gave up their sessions, each
/// item on the line has come or was lost, and both have closed the line and are ready, it is calm. At every limit on a
/// frame's text.
pub fn becomes_calm_of<const N: usize>()
    requires { IsLimit N }
    ensures { BecomesCalm N }
{}
