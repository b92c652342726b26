//! The control bytes of the link (LIS01-A2, 6 and 7; ASCII).

/// Start of text: begins a frame.
pub const STX: u8 = 0x02;
/// End of text: ends the last frame of a message.
pub const ETX: u8 = 0x03;
/// End of transmission: ends a session; as a reply to a frame, the receiver's request to interrupt.
pub const EOT: u8 = 0x04;
/// Enquiry: asks for the line.
pub const ENQ: u8 = 0x05;
/// Acknowledgement: the positive reply.
pub const ACK: u8 = 0x06;
/// Line feed: ends a frame.
pub const LF: u8 = 0x0a;
/// Carriage return: is before the line feed that ends a frame.
pub const CR: u8 = 0x0d;
/// Negative acknowledgement: the negative reply.
pub const NAK: u8 = 0x15;
/// End of transmission block: ends an intermediate frame.
pub const ETB: u8 = 0x17;
