// Hexadecimal digits.
ghost use Rattle.std.specs.Prelude.{◌≡◌, ◌<◌};
ghost use Rattle.hexline.specs.Digits.{digit_of, pair_of, glyph_of};

// What a character says as a digit.
#[tactic(auto, unfolding(crate::specs::Digits::digit_of, crate::specs::Digits::is_digit, crate::specs::Digits::value_of))]
pub fn value(c: u8) -> Option<u8>
    ensures { result ≡ digit_of c }
{
    match c {
        b'0'..=b'9' => Some(c - b'0'),
        b'A'..=b'F' => Some(c - b'A' + 10),
        b'a'..=b'f' => Some(c - b'a' + 10),
        _ => None,
    }
}

// What two of them say as a byte.
#[tactic(auto, unfolding(crate::specs::Digits::digit_of, crate::specs::Digits::is_digit, crate::specs::Digits::value_of, crate::specs::Digits::pair_of, crate::specs::Digits::byte_of))]
pub fn join(high: u8, low: u8) -> Option<u8>
    ensures { result ≡ pair_of high low }
{
    let first = value(high)?;
    let second = value(low)?;
    Some(first * 16 + second)
}

// The digit of a number, in upper case.
#[tactic(auto, unfolding(crate::specs::Digits::glyph_of))]
pub fn glyph(n: u8) -> u8
    requires { n < 16 }
    ensures { result ≡ glyph_of n }
{
    if n < 10 { b'0' + n } else { b'A' - 10 + n }
}
