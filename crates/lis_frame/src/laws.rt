//! Laws of frames and streams, each the contract of a function that does nothing.

ghost use Rattle.lis_frame.specs.Laws.{NoSplitMatters, FramesAreHeard, HeardAreFrames, WrittenAreFrames};

/// However a stream is split, its signals are those of its parts in turn.
pub fn any_split()
    ensures { NoSplitMatters }
{}

/// The bytes of a frame, its digits in either case, are heard as that frame alone, whatever came before them; those
/// that are written for it are such bytes.
pub fn frame_is_heard()
    ensures heard { FramesAreHeard }
    ensures written { WrittenAreFrames }
{}

/// What is heard as a good frame was encoded: its bytes are the last that came.
pub fn heard_is_a_frame()
    ensures { HeardAreFrames }
{}
