// Text as a command line has it: octets in hexadecimal, numbers in decimal, words, and UTF-8, which is read as units of UTF-16. Every
// public function takes any octets.
#![tactic(auto)]

pub mod decimal;
pub mod hex;
pub mod units;
pub mod utf8;
pub mod words;
