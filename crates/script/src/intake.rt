// A line of any length, taken in parts. Of each word its first characters are kept, without the zeros in front of a number: what is dropped tells
// no name and no number from another. The last word is also read as bytes.
ghost use Rattle.std.specs.Prelude.{◌≡◌, ◌&&◌, cond, List, [], ◌∷◌, ◌++◌, ℕ, ◌+◌, ◌≤◌, eqb, ltb, length};
ghost use Rattle.hexline.specs.Line.{is_good};
ghost use Rattle.hexline.specs.Line.{kept_of as bytes_kept};
ghost use Rattle.hexline.specs.Line.{Stands as HexStands};
ghost use Rattle.script.specs.Words.{words_of, same};
ghost use Rattle.script.specs.Intake.{shortened, last_of, kept_of, is_bytes, Stands};
ghost use Rattle.script.specs.Holding.{Holds};

use crate::number;
use hexline::Line;

// Words are kept up to sixteen characters; no name or number in range has so many.
const LONGEST: usize = 16;

// Where what is kept ends, where the last word begins in it, and that word as bytes. A word that begins before 136 may end behind it, where
// nothing is kept: only so is a zero told from a longer word. The two buffers are no fields: what `begin` promises holds of each.
#[derive(Clone, Copy)]
pub struct Intake {
    pub length: usize,
    pub start: usize,
    pub bytes: Line,
}

pub fn begin() -> Intake
    ensures { (kept buffer : List ℕ) → Stands [] result kept buffer }
{
    Intake {
        length: 0,
        start: 0,
        bytes: hexline::begin(),
    }
}

// A space ends a word.
fn parted(intake: Intake, kept: &mut [u8; 136]) -> Intake
    ensures begun { (buffer : List ℕ) → HexStands [] result.bytes buffer }
    ensures held { (front word : List ℕ) → Holds front word intake.length intake.start kept.old → Holds ((front ++ word) ++ (32 ∷ [])) [] result.length result.start kept.new }
{
    let start = hexline::keep(kept, intake.length, b' ');
    Intake {
        length: start,
        start,
        bytes: hexline::begin(),
    }
}

// Whether this one character is what was kept from start on.
fn is_only(kept: &[u8; 136], start: usize, length: usize, c: u8) -> bool
    ensures { (front word : List ℕ) → Holds front word length start kept.now → result ≡ (ltb start 136 && same word (c ∷ [])) }
{
    if 136 <= start {
        return false;
    }
    if length != start + 1 {
        return false;
    }
    kept[start] == c
}

// One character more of the word that begins at start, and where it ends then. A zero that a digit follows is not kept: it says nothing.
fn lengthened(kept: &mut [u8; 136], start: usize, length: usize, c: u8) -> usize
    ensures { (front word : List ℕ) → Holds front (shortened word) length start kept.old → Holds front (shortened (word ++ (c ∷ []))) result start kept.new }
{
    if 136 <= start {
        return length;
    }
    if is_only(kept, start, length, b'0') & number::is_decimal(c) {
        return hexline::keep(kept, start, c);
    }
    if start + LONGEST <= length {
        return length;
    }
    hexline::keep(kept, length, c);
    length + 1
}

// More characters of that word, and where it ends then.
fn spoken(kept: &mut [u8; 136], start: usize, length: usize, run: &[u8]) -> usize
    ensures { (front word : List ℕ) → Holds front (shortened word) length start kept.old → Holds front (shortened (word ++ run.now)) result start kept.new }
{
    let mut end = length;
    for c in run {
        end = lengthened(kept, start, end, *c);
    }
    end
}

// A part of a line, behind the part that was taken before it. Only what stands behind its last space is read as bytes: only the last word can be asked for.
pub fn taken(intake: Intake, kept: &mut [u8; 136], buffer: &mut [u8], part: &[u8]) -> Intake
    ensures { (line : List ℕ) → Stands line intake kept.old buffer.old → Stands (line ++ part.now) result kept.new buffer.new }
{
    let mut now = intake;
    let mut rest = part;
    while let Some(end) = rest.iter().position(|c| *c == b' ') {
        now.length = spoken(kept, now.start, now.length, &rest[..end]);
        now = parted(now, kept);
        rest = &rest[end + 1..];
    }
    Intake {
        length: spoken(kept, now.start, now.length, rest),
        bytes: hexline::read(now.bytes, buffer, rest),
        ..now
    }
}

// Nothing here calls it: docs/STATEMENTS.md names it.
pub fn is_empty(intake: Intake) -> bool
    ensures { (taken kept buffer : List ℕ) → Stands taken intake kept buffer → result ≡ eqb (length taken) 0 }
{
    intake.length == 0
}

// The line as it was kept.
pub fn line(intake: Intake, kept: &[u8; 136]) -> &[u8]
    ensures { (taken buffer : List ℕ) → Stands taken intake kept.now buffer → result.now ≡ kept_of taken }
{
    hexline::front(kept, intake.length)
}

// Whether the last word is bytes: pairs of digits, at least one, or "-" for none.
pub fn is_bytes(intake: Intake, kept: &[u8; 136]) -> bool
    ensures { (taken buffer : List ℕ) → Stands taken intake kept.now buffer → length (words_of taken) ≤ 8 → result ≡ is_bytes (last_of (words_of taken)) }
{
    if hexline::is_good(intake.bytes) {
        return intake.start < intake.length;
    }
    is_only(kept, intake.start, intake.length, b'-')
}

// Those bytes.
pub fn bytes(intake: Intake, buffer: &[u8]) -> &[u8]
    ensures { (taken kept : List ℕ) → Stands taken intake kept buffer.now → result.now ≡ cond (is_good (last_of (words_of taken))) (bytes_kept buffer.now (last_of (words_of taken))) [] }
{
    hexline::kept(intake.bytes, buffer)
}
