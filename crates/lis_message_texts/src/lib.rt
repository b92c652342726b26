//! The texts that a message goes over the link in: one for each record (LIS02-A2, 5; LIS01-A2, 6.3).
#![tactic(auto)]

mod texts;

pub use lis_message::Message;
pub use lis_text::{LinkText, Texts};
pub use texts::{TextsFault, message_texts, record_text};
