// How the program is used.
use crate::failure::Failure;
use std::ops::RangeInclusive;
use text::words::Verb;

// All verbs, in the order of the help.
const VERBS: [Verb; 10] = [
    Verb::Key,
    Verb::Open,
    Verb::Wrap,
    Verb::Verify,
    Verb::Mic,
    Verb::Decrypt,
    Verb::Encrypt,
    Verb::Checksum,
    Verb::Bill,
    Verb::Help,
];

// What the words in capitals are.
const TERMS: [&str; 3] = [
    "KEYFILE has the key: 32 hexadecimal digits. initiator or acceptor is the sender.",
    "SEQUENCE, and FIRST of the session: 0 to 4294967295. USAGE: 1 to 15. CONFOUNDER: 16 hexadecimal digits, drawn anew for each.",
    "TOKENFILE has the token as it is. framed: in the frame that tokens travel in.",
];

// The verb and the words that it takes. This and `purpose` are matches and no table, since a search in a table would need an answer for a
// verb that is not in it.
pub fn words(verb: Verb) -> &'static str {
    match verb {
        Verb::Key => "key",
        Verb::Open => "open KEYFILE full|export initiator|acceptor [framed]",
        Verb::Wrap =>
            "wrap KEYFILE full|export initiator|acceptor SEQUENCE CONFOUNDER sealed|clear [framed]",
        Verb::Verify => "verify KEYFILE full|export initiator|acceptor TOKENFILE [framed]",
        Verb::Mic => "mic KEYFILE full|export initiator|acceptor SEQUENCE [framed]",
        Verb::Decrypt => "decrypt KEYFILE full|export USAGE",
        Verb::Encrypt => "encrypt KEYFILE full|export USAGE CONFOUNDER",
        Verb::Checksum => "checksum KEYFILE USAGE",
        Verb::Bill => "bill KEYFILE full|export initiator|acceptor FIRST",
        Verb::Help => "help",
    }
}

// How many words a verb takes after it. A word in brackets, which stands last, may be left out.
pub fn counts(verb: Verb) -> RangeInclusive<usize> {
    let words = words(verb);
    let most = words.split(' ').skip(1).count();
    let optional = usize::from(words.ends_with(']'));
    most.saturating_sub(optional)..=most
}

// What a verb does.
fn purpose(verb: Verb) -> &'static str {
    match verb {
        Verb::Key => "prints the key of the password on standard input, which is in UTF-8",
        Verb::Open => "opens the Wrap token on standard input",
        Verb::Wrap => "writes the Wrap token of the message on standard input",
        Verb::Verify => "reads the MIC token in a file, over the data on standard input",
        Verb::Mic => "writes the MIC token over the data on standard input",
        Verb::Decrypt => "decrypts the message on standard input",
        Verb::Encrypt => "writes the encrypted message of the data on standard input",
        Verb::Checksum => "prints the keyed checksum of the data on standard input",
        Verb::Bill => "bills the framed Wrap tokens on standard input, one after the other",
        Verb::Help => "prints this",
    }
}

pub fn help(rt: HostRuntime) -> Result<(), Failure> {
    println!(rt; "RC4-HMAC tokens of Kerberos (RFC 4757)")?;
    for verb in VERBS {
        println!(rt; "krbtoken {}", words(verb))?;
        println!(rt; "    {}", purpose(verb))?;
    }
    for term in TERMS {
        println!(rt; "{term}")?;
    }
    Ok(())
}
