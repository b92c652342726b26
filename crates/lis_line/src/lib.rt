//! Two stations on one line, event by event: what became of each session of either side.
#![tactic(auto)]

mod end;
mod event;
mod item;
pub mod laws;
mod line;
mod noise;
mod playing;

pub use event::{LineEvent, LineEvents, StationEvent};
pub use lis_frame::{FrameOf, FramesOf};
pub use lis_link::Outcome;
pub use lis_text::{LinkText, List, Texts};
pub use lis_world::{PlayFault, Session, SessionOf};
pub use playing::{BothHistories, BothHistoriesOf, HistoryOf, play_both, play_both_of};
