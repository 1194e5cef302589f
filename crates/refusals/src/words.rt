// The words of a strength, a sender and a seal, as this program prints them.
use tokens::context::Sender;
use tokens::strength::Strength;

pub fn strength(strength: Strength) -> &'static str {
    match strength {
        Strength::Full => "full",
        Strength::Export => "export",
    }
}

pub fn sender(sender: Sender) -> &'static str {
    match sender {
        Sender::Initiator => "initiator",
        Sender::Acceptor => "acceptor",
    }
}

pub fn seal(sealed: bool) -> &'static str {
    if sealed { "sealed" } else { "clear" }
}
