//! The law of a station that hears carefully, the contract of a function that does nothing.

ghost use Rattle.lis_careful_station.specs.Laws.{IsAsPinned};

/// What a station hears carefully is what happens to a station as the profile has it: on an open line ENQ and EOT are
/// its timer and `close_line`, with the room that there was, and any other byte is a byte, an STX inside an unfinished
/// frame DLE. So each thing that happens to it is one of those, on a line that loses what ends the session and damages
/// what is heard as DLE.
pub fn is_as_pinned()
    ensures { IsAsPinned }
{}
