// The place of a byte in a text.
ghost use Rattle.std.specs.Prelude.{◌≡◌, ◌+◌, ◌≤◌, min, max, length, take, drop};
ghost use Rattle.script.specs.Scan.{index_of};

// The index of the first such byte between `from` and `to`, or where the two or the text end. By a range, since the index counts from the
// text's front. Nothing here calls it: docs/STATEMENTS.md names it.
#[tactic(auto, unfolding(crate::specs::Scan::index_of, crate::specs::Scan::index_after))]
pub fn find(text: &[u8], from: usize, to: usize, byte: u8) -> usize
    ensures value { result ≡ from + index_of byte (drop from (take to text.now)) }
    ensures within { result ≤ max from (min to (length text.now)) }
{
    let end = to.min(text.len());
    for i in from..end {
        if text[i] == byte {
            return i;
        }
    }
    from.max(end)
}
