//! Words of the link: its control bytes, how an ENQ is answered, the bytes that a text may hold, and the texts that a
//! session carries (LIS01-A2, 6).
#![tactic(auto)]

mod control;
pub mod laws;
mod link_text;
mod readiness;
mod text;

pub use control::{ACK, CR, ENQ, EOT, ETB, ETX, LF, NAK, STX};
pub use link_text::{LONGEST_TEXT, LinkText, MOST_TEXTS, TextRefused, Texts, check_text};
pub use lis_bytes::{ByteSet, List, are_over, first_and_sum, first_in, sum_of};
pub use readiness::Readiness;
pub use text::{TextFault, check_bytes, first_forbidden, text_and_sum};
