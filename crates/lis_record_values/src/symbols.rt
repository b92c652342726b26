//! What a component holds.

/// One symbol of a component: a text byte, a byte written in hexadecimal digits, or the start or the
/// end of highlighted text.
#[derive(Clone, Copy, Debug, PartialEq, Eq)]
pub enum Sym {
    /// A text byte; a delimiter too, which is written as an escape.
    Char(u8),
    /// A byte that a hexadecimal escape carries.
    Raw(u8),
    /// Highlighting begins.
    On,
    /// Normal text begins.
    Off,
}
