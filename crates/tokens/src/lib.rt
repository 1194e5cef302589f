// Keys, usages, the keyed checksum, encrypted messages, and MIC and Wrap tokens of RFC 4757, by its sections: `key` is section 2,
// `usage` 3, `checksum` 4, `message` 5, `mic` 7.2 and `wrap` 7.3. Every public function takes any input, and refuses what it can't
// use with a `Refusal` of `answer`.
#![tactic(auto)]

pub mod answer;
pub mod checks;
pub mod checksum;
pub mod context;
mod export;
pub mod key;
pub mod limits;
mod mac;
pub mod message;
pub mod mic;
mod octets;
pub mod session;
pub mod short;
mod stream;
pub mod strength;
mod token;
pub mod usage;
pub mod wrap;
