//! The whole link: a sender, a receiver and what travels between them, event by event; and the laws
//! over every list of events.
#![tactic(auto)]

mod computer_state;
mod event;
mod late;
pub mod laws;
mod playing;
mod run;
mod session;
mod unit;

pub use event::{Event, Events, LateEvent, LateEvents};
pub use lis_frame::{FrameOf, FramesOf};
pub use lis_link::Outcome;
pub use lis_text::{LinkText, List, Texts};
pub use playing::{History, HistoryOf, PlayFault, play, play_late, play_late_of, play_of};
pub use session::{Session, SessionOf};
