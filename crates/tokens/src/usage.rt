// The fifteen usages and their message types: RFC 4757, section 3.
ghost use Rattle.std.specs.Prelude.{◌≡◌};
ghost use Rattle.tokens.specs.Strength.{salt};
ghost use Rattle.tokens.specs.Usage as Spec;

use crate::answer::Refusal;
use crate::short::Short;
use crate::strength::Strength;

// What a key is used for: T, the message type as four octets, the lowest first. It is no enum of fifteen: usages that have one T, as 3, 8
// and 9, are one usage, and the numbers below are public names (docs/DECISIONS.md, 17).
#[derive(Clone, Copy, Debug, PartialEq, Eq)]
pub struct Usage {
    t: [u8; 4],
}

impl Usage {
    pub const AS_REQ_PA_ENC_TIMESTAMP: u32 = 1;

    pub const AS_REP_TGS_REP_TICKET: u32 = 2;

    pub const AS_REP_ENCRYPTED_PART: u32 = 3;

    pub const TGS_REQ_AUTHORIZATION_DATA_SESSION_KEY: u32 = 4;

    pub const TGS_REQ_AUTHORIZATION_DATA_SUBKEY: u32 = 5;

    pub const TGS_REQ_AUTHENTICATOR_CKSUM: u32 = 6;

    pub const TGS_REQ_AUTHENTICATOR: u32 = 7;

    pub const TGS_REP_ENCRYPTED_PART_SESSION_KEY: u32 = 8;

    pub const TGS_REP_ENCRYPTED_PART_SUBKEY: u32 = 9;

    pub const AP_REQ_AUTHENTICATOR_CKSUM: u32 = 10;

    pub const AP_REQ_AUTHENTICATOR: u32 = 11;

    pub const AP_REP_ENCRYPTED_PART: u32 = 12;

    pub const KRB_PRIV_ENCRYPTED_PART: u32 = 13;

    pub const KRB_CRED_ENCRYPTED_PART: u32 = 14;

    pub const KRB_SAFE_CKSUM: u32 = 15;

    // T.
    pub fn t(self) -> [u8; 4]
        ensures { result ≡ self.t }
    {
        self.t
    }

    // The salt for this usage's T.
    pub fn salt(self, strength: Strength) -> Short<14>
        ensures { result ≡ salt strength self.t }
    {
        strength.salt(self.t)
    }
}

// The message types, from usage 1 to usage 15. They are the usage's number, but for two of the encrypted parts of a reply, which have
// the third's.
const MESSAGE_TYPES: [u8; 15] = [1, 2, 8, 4, 5, 6, 7, 8, 8, 10, 11, 12, 13, 14, 15];

// The usage of a number, of the fifteen.
impl TryFrom<u32> for Usage {
    type Error = Refusal;

    ghost try_from_gives = { λ number r. r ≡ Spec.named number };

    fn try_from(number: u32) -> Result<Self, Refusal> {
        if number < Usage::AS_REQ_PA_ENC_TIMESTAMP || Usage::KRB_SAFE_CKSUM < number {
            return Err(Refusal::Usage);
        }
        let t = MESSAGE_TYPES[number as usize - 1];
        Ok(Usage { t: [t, 0, 0, 0] })
    }
}
