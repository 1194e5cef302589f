// RFC 4757: the key of the password "foo" (section 2), and the number and T of each usage by its name (section 3).
use text::hex::Hex;
use tokens::key;
use tokens::usage::Usage;

// The usages of the exchanges with the key distribution center, and those of the exchanges between client and server.
const USAGES: [(&str, u32); 15] = [
    ("AS-REQ PA-ENC-TIMESTAMP", Usage::AS_REQ_PA_ENC_TIMESTAMP),
    ("AS-REP and TGS-REP Ticket", Usage::AS_REP_TGS_REP_TICKET),
    ("AS-REP encrypted part", Usage::AS_REP_ENCRYPTED_PART),
    (
        "TGS-REQ AuthorizationData, session key",
        Usage::TGS_REQ_AUTHORIZATION_DATA_SESSION_KEY,
    ),
    (
        "TGS-REQ AuthorizationData, subkey",
        Usage::TGS_REQ_AUTHORIZATION_DATA_SUBKEY,
    ),
    (
        "TGS-REQ Authenticator cksum",
        Usage::TGS_REQ_AUTHENTICATOR_CKSUM,
    ),
    ("TGS-REQ Authenticator", Usage::TGS_REQ_AUTHENTICATOR),
    (
        "TGS-REP encrypted part, session key",
        Usage::TGS_REP_ENCRYPTED_PART_SESSION_KEY,
    ),
    (
        "TGS-REP encrypted part, subkey",
        Usage::TGS_REP_ENCRYPTED_PART_SUBKEY,
    ),
    (
        "AP-REQ Authenticator cksum",
        Usage::AP_REQ_AUTHENTICATOR_CKSUM,
    ),
    ("AP-REQ Authenticator", Usage::AP_REQ_AUTHENTICATOR),
    ("AP-REP encrypted part", Usage::AP_REP_ENCRYPTED_PART),
    ("KRB-PRIV encrypted part", Usage::KRB_PRIV_ENCRYPTED_PART),
    ("KRB-CRED encrypted part", Usage::KRB_CRED_ENCRYPTED_PART),
    ("KRB-SAFE cksum", Usage::KRB_SAFE_CKSUM),
];

fn write_key(rt: &impl Print, name: &str, units: &[u16]) {
    let key = key::password_key(units).unwrap_or_default();
    let _ = println!(rt; "RFC 4757 2 {name}: {}", Hex(&key));
}

fn write_type(rt: &impl Print, name: &str, number: u32) {
    let t = Usage::try_from(number).map_or([0; 4], Usage::t);
    let _ = println!(rt; "{name}: {number} {}", Hex(&t));
}

pub fn run(rt: &impl Print) {
    write_key(rt, "foo", &[0x66, 0x6f, 0x6f]);
    for (name, number) in USAGES {
        write_type(rt, name, number);
    }
}
