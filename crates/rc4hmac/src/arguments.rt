// The arguments of the calls as C gives them: a number that is 0 for no and anything else for yes, and a window as four numbers.
ghost use Rattle.std.specs.Prelude.{◌≡◌};
ghost use Rattle.rc4hmac.specs.Arguments.{is_yes, strength_of, sender_of, context_of, window_of};

use billing::window::Window;
use tokens::context::{Context, Sender};
use tokens::strength::Strength;

pub fn is_yes(n: u32) -> bool
    ensures { result ≡ is_yes n }
{
    n != 0
}

// Full strength unless export is asked for.
pub fn strength_of(export: u32) -> Strength
    ensures { result ≡ strength_of export }
{
    if is_yes(export) {
        Strength::Export
    } else {
        Strength::Full
    }
}

// The initiator unless the acceptor is named.
fn sender_of(acceptor: u32) -> Sender
    ensures { result ≡ sender_of acceptor }
{
    if is_yes(acceptor) {
        Sender::Acceptor
    } else {
        Sender::Initiator
    }
}

// The key, the strength and the sender of a token, which C gives one by one.
pub fn context_of(key: &[u8; 16], export: u32, acceptor: u32) -> Context
    ensures { result ≡ context_of key.now export acceptor }
{
    let key = *key;
    Context {
        key,
        strength: strength_of(export),
        sender: sender_of(acceptor),
    }
}

// The window that four numbers hold. Any four will do: the first number and the next expected distance are taken modulo 2^32.
pub fn window_of(words: &[u64; 4]) -> Window
    ensures { result ≡ window_of words.now }
{
    let [first, next, seen, billed] = *words;
    Window {
        first: (first & 0xffff_ffff) as u32,
        next: (next & 0xffff_ffff) as u32,
        seen,
        billed,
    }
}
