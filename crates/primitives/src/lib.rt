// MD4, MD5, HMAC-MD5 and RC4. Nothing here knows of Kerberos. `whole` has the calls on whole slices, within their limits;
// `hash`, `hmac` and `rc4` have the states of messages and texts that come in parts, of which every value is legal. A length outside
// the limits is refused with `LengthError`, and nothing else is refused. `compression` has what MD4 and MD5 share.
#![tactic(auto)]

mod compression;
pub mod hash;
pub mod hmac;
pub mod limits;
mod md4;
mod md5;
pub mod rc4;
pub mod whole;
mod word;
