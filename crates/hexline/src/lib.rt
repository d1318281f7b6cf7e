// Bytes as text: two hexadecimal digits to a byte, read from a line character by character, and written.
#![tactic(auto)]

mod digit;
mod line;
mod spelling;

ghost use Rattle.std.specs.Prelude.{◌≡◌, take};

pub use line::{Line, begin, is_empty, is_good, keep, kept, read};
pub use spelling::spell;

// The first n bytes, or all where there are fewer.
pub fn front(bytes: &[u8], n: usize) -> &[u8]
    ensures { result.now ≡ take n bytes.now }
{
    bytes.get(..n).unwrap_or(bytes)
}
