// A line of hexadecimal digits, taken character by character: it may have any length, and come in parts.
ghost use Rattle.std.specs.Prelude.{◌≡◌, cond, List, [], ◌∷◌, ◌++◌, ℕ, ◌+◌, ◌<◌, min, eqb, length, set};
ghost use Rattle.hexline.specs.Line.{is_good, kept_of, Stands};

use crate::{digit, front};

// What was taken: pairs, so many of whose bytes are kept; pairs and one character more; or what no good line begins with. Bad is no None: it is
// a state of the reader like the others, and `state_open` tells the three apart. The buffer is no field: what `begin` promises holds of each.
#[derive(Clone, Copy)]
pub enum Line {
    Pairs(usize),
    Half(usize, u8),
    Bad,
}

pub fn begin() -> Line
    ensures { (buffer : List ℕ) → Stands [] result buffer }
{
    Line::Pairs(0)
}

// One byte more behind the first n, where there is room, and where those kept end then.
pub fn keep(buffer: &mut [u8], n: usize, byte: u8) -> usize
    ensures { (result ≡ min (n + 1) (length buffer.old)) × (buffer.new ≡ set buffer.old n byte) }
{
    if n < buffer.len() {
        buffer[n] = byte;
        return n + 1;
    }
    buffer.len()
}

pub fn next(line: Line, buffer: &mut [u8], c: u8) -> Line
    ensures { (taken : List ℕ) → Stands taken line buffer.old → Stands (taken ++ (c ∷ [])) result buffer.new }
{
    match line {
        Line::Pairs(n) => Line::Half(n, c),
        Line::Half(n, high) => match digit::join(high, c) {
            Some(byte) => Line::Pairs(keep(buffer, n, byte)),
            None => Line::Bad,
        },
        Line::Bad => Line::Bad,
    }
}

// A part of a line, behind the part that was taken before it.
pub fn read(line: Line, buffer: &mut [u8], part: &[u8]) -> Line
    ensures { (taken : List ℕ) → Stands taken line buffer.old → Stands (taken ++ part.now) result buffer.new }
{
    let mut state = line;
    for c in part {
        state = next(state, buffer, *c);
    }
    state
}

pub fn is_good(line: Line) -> bool
    ensures { (taken buffer : List ℕ) → Stands taken line buffer → result ≡ is_good taken }
{
    matches!(line, Line::Pairs(_))
}

pub fn is_empty(line: Line) -> bool
    ensures { (taken buffer : List ℕ) → Stands taken line buffer → 0 < length buffer → result ≡ eqb (length taken) 0 }
{
    // A match, and no matches! with a guard: its last arm would not say that the state is no pairs, and the proof did not close.
    match line {
        Line::Pairs(n) => n == 0,
        _ => false,
    }
}

// The bytes of a good line, and none of any other.
pub fn kept(line: Line, buffer: &[u8]) -> &[u8]
    ensures { (taken : List ℕ) → Stands taken line buffer.now → result.now ≡ cond (is_good taken) (kept_of buffer.now taken) [] }
{
    match line {
        Line::Pairs(n) => front(buffer, n),
        _ => &[],
    }
}
