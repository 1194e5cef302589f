// GSS-API's outer frame of RFC 2743, section 3.1, around the MIC and Wrap tokens of `tokens`: `length` is the length of DER, `lead` what
// stands before a token, `framing` reads frames, `capture` tells frames apart that follow one another, and `mic` and `wrap` write and
// read framed tokens. Every public function takes any input, and refuses what it can't use with
// a `Refusal` of `tokens`.
#![tactic(auto)]

pub mod capture;
pub mod framing;
mod lead;
mod length;
pub mod mic;
pub mod wrap;
