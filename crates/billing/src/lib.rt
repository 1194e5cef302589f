// The receive window of a session, by which each sequence number is billed once, and tokens received into it. Every public function
// takes any window and any input. A call that receives a token returns what its reader returned, and the window after it.
#![tactic(auto)]

pub mod receive;
pub mod status;
pub mod window;
