// The words of the command line that stand for a choice.
ghost use Rattle.std.specs.Prelude.{◌≡◌, map};
ghost use Rattle.text.specs.Words as Spec;

use tokens::context::Sender;
use tokens::strength::Strength;

// What the program is asked to do.
#[derive(Clone, Copy, Debug, PartialEq, Eq)]
pub enum Verb {
    Key,
    Open,
    Wrap,
    Verify,
    Mic,
    Decrypt,
    Encrypt,
    Checksum,
    Bill,
    Help,
}

// The choice whose word is the given one.
fn choice<T: Copy>(word: &[u8], choices: &[(&str, T)]) -> Option<T>
    ensures { result ≡ Spec.chosen word.now (map (λ c. (c.0.now, c.1)) choices.now) }
{
    for (name, choice) in choices {
        if word == name.as_bytes() {
            return Some(*choice);
        }
    }
    None
}

pub fn verb_of(word: &[u8]) -> Option<Verb>
    ensures { result ≡ Spec.verb_of word.now }
{
    choice(
        word,
        &[
            ("key", Verb::Key),
            ("checksum", Verb::Checksum),
            ("bill", Verb::Bill),
            ("help", Verb::Help),
            ("open", Verb::Open),
            ("wrap", Verb::Wrap),
            ("verify", Verb::Verify),
            ("mic", Verb::Mic),
            ("decrypt", Verb::Decrypt),
            ("encrypt", Verb::Encrypt),
        ],
    )
}

pub fn strength_of(word: &[u8]) -> Option<Strength>
    ensures { result ≡ Spec.strength_of word.now }
{
    choice(
        word,
        &[("full", Strength::Full), ("export", Strength::Export)],
    )
}

pub fn sender_of(word: &[u8]) -> Option<Sender>
    ensures { result ≡ Spec.sender_of word.now }
{
    choice(
        word,
        &[
            ("initiator", Sender::Initiator),
            ("acceptor", Sender::Acceptor),
        ],
    )
}

// Whether a message is to be sealed.
pub fn sealing_of(word: &[u8]) -> Option<bool>
    ensures { result ≡ Spec.sealing_of word.now }
{
    choice(word, &[("sealed", true), ("clear", false)])
}

pub fn is_framed(word: &[u8]) -> bool
    ensures { result ≡ Spec.is_framed word.now }
{
    word == b"framed".as_slice()
}

pub fn is_sealed_only(word: &[u8]) -> bool
    ensures { result ≡ Spec.is_sealed_only word.now }
{
    word == b"sealed-only".as_slice()
}
