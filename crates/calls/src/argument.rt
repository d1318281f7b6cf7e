// What stands at a place of a line, and where the line ends.
ghost use Rattle.std.specs.Prelude.{◌≡◌, cond, Option, None, List, ℕ};
ghost use Rattle.script.specs.Words.{words_of, word_at};
ghost use Rattle.calls.specs.Forms.{ends, at_most};

use crate::line::Line;

// A value that a word says.
pub trait FromWord: Copy {
    ghost says: { List ℕ → Option Self };

    fn from_word(word: &[u8]) -> Option<Self>
        ensures { result ≡ says word.now };
}

// What the word at this place says.
pub fn said<T: FromWord>(line: &[u8], index: usize) -> Option<T>
    ensures { result ≡ T.says (word_at index line.now) }
{
    T::from_word(script::word(line, index))
}

// A number that is at most this.
#[tactic(auto, unfolding(crate::specs::Forms::at_most))]
pub fn at_most(line: &[u8], index: usize, most: u32) -> Option<u32>
    ensures { result ≡ at_most most (word_at index line.now) }
{
    let n: u32 = said(line, index)?;
    (n <= most).then_some(n)
}

// What the line asks for, where it has so many words.
pub fn whole(line: &[u8], words: usize, what: Line) -> Option<Line>
    ensures { result ≡ ends what words (words_of line.now) }
{
    (script::count(line) == words).then_some(what)
}

// The same of a line whose last word is bytes, where `given` says so.
pub fn with_bytes(line: &[u8], words: usize, given: bool, what: Line) -> Option<Line>
    ensures { result ≡ cond given (ends what words (words_of line.now)) None }
{
    if given {
        whole(line, words, what)
    } else {
        None
    }
}
