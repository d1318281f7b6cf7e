// What is written, in either form.
ghost use Rattle.std.specs.Prelude.{◌≡◌, ◌+◌, min};
ghost use Rattle.listing.specs.Capture.{last_time};

use crate::capture::{HEAD, KEPT};
use crate::{capture, printed};
use std::io;

// How packets and replies are written.
#[derive(Clone, Copy, PartialEq, Eq)]
pub enum Form {
    // A line of hexadecimal for the reply to each packet, and the done counts at the end.
    Text,
    // A capture file: a record for each packet, and behind it one for its reply.
    Capture,
}

// What the form needs from one line to the next. No Option: text is a way of writing too.
#[derive(Clone, Copy)]
pub enum Output {
    Text,
    Capture(Capture),
}

// The time of the next record.
#[derive(Clone, Copy)]
pub struct Capture {
    pub stamp: u64,
}

// The last time that a record can have. No run comes to it: the file would have 68 million gigabytes.
const LAST: u64 = 4294967295999999;

impl Capture {
    // Record number n stands at n microseconds, since a line has no time. At the end of the range every further record has the last time.
    // A record keeps no more bytes than the header says.
    fn recorded(&mut self, rt: &impl Print, original: u64, bytes: &[u8]) -> io::Result<()>
        ensures { self.new.stamp ≡ min (self.old.stamp + 1) last_time }
    {
        // Not a `Text`, which only grows: what `lay` promises names the whole buffer.
        let mut text = [0u8; HEAD + KEPT];
        let n = capture::lay(self.stamp, original, hexline::front(bytes, KEPT), &mut text);
        self.stamp = self.stamp.saturating_add(1).min(LAST);
        rt.write_all(hexline::front(&text, n))
    }

    fn answered(
        &mut self,
        rt: &impl Print,
        original: u64,
        arrived: &[u8],
        reply: Option<&[u8]>,
    ) -> io::Result<()> {
        self.recorded(rt, original, arrived)?;
        match reply {
            Some(bytes) => self.recorded(rt, bytes.len() as u64, bytes),
            None => Ok(()),
        }
    }
}

impl Output {
    // What stands in front of the first line is written.
    pub fn begun(rt: &impl Print, form: Form) -> io::Result<Output> {
        match form {
            Form::Text => Ok(Output::Text),
            Form::Capture => {
                rt.write_all(&capture::header())?;
                Ok(Output::Capture(Capture { stamp: 0 }))
            }
        }
    }

    // The packet that arrived, and the reply if there is one.
    pub fn answered(
        &mut self,
        rt: &impl Print,
        original: u64,
        arrived: &[u8],
        reply: Option<&[u8]>,
    ) -> io::Result<()> {
        match self {
            Output::Text => printed::answer(rt, reply),
            Output::Capture(capture) => capture.answered(rt, original, arrived, reply),
        }
    }

    // A bad line is no packet, so a capture has no record of it.
    pub fn unanswered(&self, rt: &impl Print) -> io::Result<()> {
        match self {
            Output::Text => rt.write_all(b"bad line\n"),
            Output::Capture(_) => Ok(()),
        }
    }

    // Nothing is written any more but the done counts: five writes, each tried whatever became of those before it.
    pub fn ended(&self, rt: &impl Print, out: u32, taken: u32) -> io::Result<()> {
        match self {
            Output::Text => {
                let _ = print!(rt; "out ");
                let _ = print!(rt; "{out}");
                let _ = print!(rt; " in ");
                let _ = print!(rt; "{taken}");
                println!(rt)
            }
            Output::Capture(_) => Ok(()),
        }
    }
}
