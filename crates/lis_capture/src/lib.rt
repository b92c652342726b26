//! Captures of the link: what their lines say, and how lines are written.
#![tactic(auto)]

mod digits;
pub mod encoding;
pub mod laws;
pub mod line;
pub mod reader;

pub use encoding::LONGEST_ENCODING;
pub use line::{CaptureVersion, LONGEST_LINE, Line, LineBytes, MOST_BYTES};
pub use lis_text::Readiness;
pub use reader::{LineFound, LineReader};
