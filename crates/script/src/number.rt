// Decimal numbers.
ghost use Rattle.std.specs.Prelude.{◌≡◌};
ghost use Rattle.script.specs.Numbers.{is_decimal, appended_of, number_of};

#[tactic(auto, unfolding(crate::specs::Numbers::is_decimal))]
pub(crate) fn is_decimal(c: u8) -> bool
    ensures { result ≡ is_decimal c }
{
    c.is_ascii_digit()
}

// A number with one digit more behind it.
#[tactic(auto, unfolding(crate::specs::Numbers::is_decimal, crate::specs::Numbers::number_from, crate::specs::Numbers::appended_of))]
fn appended(value: u32, c: u8) -> Option<u32>
    ensures { result ≡ appended_of value c }
{
    if !is_decimal(c) {
        return None;
    }
    let tens = value.checked_mul(10)?;
    tens.checked_add(u32::from(c - b'0'))
}

// What a word says as a number: 0 to 4,294,967,295, without sign.
pub fn as_number(word: &[u8]) -> Option<u32>
    ensures { result ≡ number_of word.now }
{
    if word.is_empty() {
        return None;
    }
    let mut value = 0;
    for c in word {
        value = appended(value, *c)?;
    }
    Some(value)
}
