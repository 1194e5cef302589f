// The most that the calls take.

// 16-bit units of a password.
pub const MOST_UNITS: usize = 256;

// Octets of a message.
pub const MOST_MESSAGE: usize = 32768;
