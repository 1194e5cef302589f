// The C interface of `include/rc4hmac.h`. Each function takes numbers and lent octets, makes one call, and answers the number
// of a refusal, 0 when done.
#![tactic(auto)]

mod algorithms;
mod answers;
mod arguments;
mod framed_tokens;
mod gss_tokens;
mod messages;
mod receive_window;
