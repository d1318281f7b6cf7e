// What is printed of a reply. An answer is one write, so that a host reads it whole.
use lines::Text;
use std::fmt::Write;
use std::io;

// A reply's digits and the line's end.
fn digits(rt: &impl Print, bytes: &[u8]) -> io::Result<()> {
    let mut text = Text::<2055>::new();
    text.put_bytes(bytes);
    let _ = text.write_str("\n");
    rt.write_all(text.as_bytes())
}

// The reply, or "-" for none: only a reply pays for the memory of its digits.
pub fn answer(rt: &impl Print, reply: Option<&[u8]>) -> io::Result<()> {
    match reply {
        Some(bytes) => digits(rt, bytes),
        None => rt.write_all(b"-\n"),
    }
}
