// What a sequence number is to a session.
ghost use Rattle.std.specs.Prelude.{◌≡◌, Some};
ghost use Rattle.billing.specs.Status as Spec;

use std::fmt;

// Beside each, its name in RFC 2743, section 1.2.3, which has none for the last.
#[derive(Clone, Copy, Debug, PartialEq, Eq)]
pub enum Status {
    InOrder = 1, // GSS_S_COMPLETE
    Gap = 2, // GSS_S_GAP_TOKEN
    Late = 3, // GSS_S_UNSEQ_TOKEN
    Duplicate = 4, // GSS_S_DUPLICATE_TOKEN
    Old = 5, // GSS_S_OLD_TOKEN
    Outside = 6,
}

impl Status {
    // The number that a caller is given. 0 is left for no status. It is a method and no `From`, as `Refusal::number`.
    pub fn number(self) -> u32
        ensures { result ≡ Spec.number self }
    {
        self as u32
    }

    // Whether a number of this status is billed.
    pub fn is_billed(self) -> bool
        ensures { result ≡ Spec.is_billed self }
    {
        matches!(self, Status::InOrder | Status::Gap | Status::Late)
    }
}

impl fmt::Display for Status {
    ghost output = { λ status. Some (Spec.words status) };

    fn fmt<W: fmt::Write>(&self, f: &mut fmt::Formatter<W>) -> fmt::Result {
        f.write_str(match self {
            Status::InOrder => "in order",
            Status::Gap => "gap",
            Status::Late => "late",
            Status::Duplicate => "duplicate",
            Status::Old => "old",
            Status::Outside => "outside",
        })
    }
}
