// Bytes written as digits.
ghost use Rattle.std.specs.Prelude.{◌≡◌, ◌++◌, ◌*◌, ◌≤◌, length, drop};
ghost use Rattle.hexline.specs.Digits.{spelt_of};

use crate::digit;

// Puts the bytes' digits at the start of text, and answers how many there are. No answer could say that there is no room: the caller lends it.
pub fn spell(bytes: &[u8], text: &mut [u8]) -> usize
    requires { 2 * length bytes.now ≤ length text.old }
    ensures { (result ≡ 2 * length bytes.now) × (text.new ≡ spelt_of bytes.now ++ drop result text.old) }
{
    // Two places a byte: the index says which.
    for (i, b) in bytes.iter().enumerate() {
        text[2 * i] = digit::glyph(*b / 16);
        text[2 * i + 1] = digit::glyph(*b % 16);
    }
    2 * bytes.len()
}
