// The words of a line, between single spaces.
ghost use Rattle.std.specs.Prelude.{◌≡◌, length, map};
ghost use Rattle.script.specs.Words.{words_of, word_at, same, beside};

pub fn count(line: &[u8]) -> usize
    ensures { result ≡ length (words_of line.now) }
{
    line.split(|c| *c == b' ').count()
}

// The word with this index, and no characters where there is none.
pub fn word(line: &[u8], index: usize) -> &[u8]
    ensures { result.now ≡ word_at index line.now }
{
    line.split(|c| *c == b' ').nth(index).unwrap_or(&[])
}

// Whether a word is this name.
pub fn is(word: &[u8], name: &[u8]) -> bool
    ensures { result ≡ same word.now name.now }
{
    word == name
}

// What stands beside the first of these names that is the word.
pub fn beside<A: Copy>(word: &[u8], rows: &[(&str, A)]) -> Option<A>
    ensures { result ≡ beside word.now (map (λ row. (row.0.now, row.1)) rows.now) }
{
    for (name, value) in rows {
        if is(word, name.as_bytes()) {
            return Some(*value);
        }
    }
    None
}
