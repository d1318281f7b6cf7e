// The text of an answer, put together from the front of a lent buffer. Buffer and place are no struct: `Laid` holds of any place, also past the end.
ghost use Rattle.std.specs.Prelude.{◌≡◌, ◌+◌, leb};
ghost use Rattle.script.specs.Text.{Laid, Numbered, shown_of};

// Whether n bytes fit behind the first `at`.
fn has_room(size: usize, at: usize, n: usize) -> bool
    ensures { result ≡ leb (at + n) size }
{
    if size < at {
        return false;
    }
    n <= size - at
}

// Lays the bytes behind the first `at`, and answers where they end; where there is no room, none of them.
pub fn put(text: &mut [u8], at: usize, bytes: &[u8]) -> usize
    ensures { Laid text.old at bytes.now result text.new }
{
    if !has_room(text.len(), at, bytes.len()) {
        return at;
    }
    let end = at + bytes.len();
    text[at..end].copy_from_slice(bytes);
    end
}

// Nothing here calls it: docs/STATEMENTS.md names it.
pub fn put_number(text: &mut [u8], at: usize, n: u64) -> usize
    ensures { Numbered text.old at n result text.new }
{
    // Fixed memory: the digits of the largest number.
    let mut digits = [0u8; 20];
    let count = io::decimal(n, &mut digits);
    put(text, at, &digits[..count])
}

// The digits of bytes, and "-" for none.
pub fn put_bytes(text: &mut [u8], at: usize, bytes: &[u8]) -> usize
    ensures { Laid text.old at (shown_of bytes.now) result text.new }
{
    if bytes.is_empty() {
        return put(text, at, b"-");
    }
    let count = 2 * bytes.len();
    if !has_room(text.len(), at, count) {
        return at;
    }
    let end = at + count;
    hexline::spell(bytes, &mut text[at..end]);
    end
}
