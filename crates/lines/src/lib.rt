// Lines of the input, of any length: each is taken in parts, and answered where it ends. And the text of an answer.
#![tactic(auto)]

mod text;

ghost use Rattle.std.specs.Prelude.{List, ℕ, OnErr, OnOk, ◌⊎◌};
ghost use Rattle.lines.specs.Lines.{parts_of, Cut, Fed, FedPart, Read, ReadPart};

use std::io;
use std::io::{Input, Read};
pub use text::Text;

// What takes lines.
pub trait Taker {
    ghost taken_gives: { Self → List ℕ → Self → Type 0 };

    ghost answered_gives: { Self → Self → Type 0 };

    ghost ended_gives: { Self → Self → Type 0 };

    // A part of a line, behind the part that was taken before it.
    fn taken(&mut self, part: &[u8])
        ensures { taken_gives self.old part.now self.new };

    // The line has ended.
    fn answered(&mut self, rt: &impl Print) -> io::Result<()>
        ensures { answered_gives self.old self.new };

    // The input has ended.
    fn ended(&mut self, rt: &impl Print) -> io::Result<()>
        ensures { ended_gives self.old self.new };
}

// The part in front of the first line's end, and what is behind that end; where no line ends, all is one part.
fn cut(text: &[u8]) -> (&[u8], Option<&[u8]>)
    ensures { Cut text.now result.0.now result.1 }
{
    match text.iter().position(|c| *c == b'\n') {
        Some(end) => (&text[..end], Some(&text[end + 1..])),
        None => (text, None),
    }
}

// Every line that ends in this text is answered; what follows the last is kept for the text to come.
fn feed<T: Taker>(rt: &impl Print, taker: &mut T, text: &[u8]) -> io::Result<()>
    ensures fed { OnOk result (Fed T.taken_gives T.answered_gives taker.old (parts_of text.now) taker.new) }
    ensures stopped { OnErr result (FedPart T.taken_gives T.answered_gives taker.old (parts_of text.now) taker.new) }
{
    let (part, mut rest) = cut(text);
    taker.taken(part);
    // No `for` over `split`: the check refuses the file of such a loop's invariant where the function has a type parameter.
    while let Some(behind) = rest {
        taker.answered(rt)?;
        let (part, more) = cut(behind);
        taker.taken(part);
        rest = more;
    }
    Ok(())
}

// Lines are answered before the next read, which may wait for a host that waits for them. The first write that fails ends it.
pub fn run<T: Taker>(rt: &(impl Input + Print), taker: &mut T) -> io::Result<()>
    ensures told { OnOk result ((texts : List (List ℕ)) × (last : T) × Read T.taken_gives T.answered_gives taker.old texts last × T.ended_gives last taker.new) }
    ensures stopped { OnErr result (((texts : List (List ℕ)) × ReadPart T.taken_gives T.answered_gives taker.old texts taker.new)
        ⊎ ((texts : List (List ℕ)) × (last : T) × Read T.taken_gives T.answered_gives taker.old texts last × T.ended_gives last taker.new)) }
{
    let mut text = [0u8; 4096];
    for _ in 0..u64::MAX {
        match rt.reader().read(&mut text) {
            Ok(0) | Err(_) => break,
            Ok(n) => feed(rt, taker, &text[..n])?,
        }
    }
    taker.ended(rt)
}
