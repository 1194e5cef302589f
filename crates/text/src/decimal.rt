// Numbers in decimal.
ghost use Rattle.std.specs.Prelude.{◌≡◌};
ghost use Rattle.text.specs.Decimal as Spec;

// The number of 32 bits that a text of one digit or more says, zeros before it or not.
pub fn read(text: &[u8]) -> Option<u32>
    ensures { result ≡ Spec.read text.now }
{
    if text.is_empty() {
        return None;
    }
    let mut sum: u32 = 0;
    for octet in text {
        let digit = (*octet as char).to_digit(10)?;
        sum = sum.checked_mul(10)?.checked_add(digit)?;
    }
    Some(sum)
}
