// What a line does. A line's bytes and the answer's text stand side by side: one is read and the other written, and they live in two places.
use crate::Answer;
use crate::port::{Port, front_mut};
use crate::shown::Shown;
use calls::{Call, Forced, Lent, Line};
use refusals::Refusal;
use state::{Core, Outcome};
use std::fmt;
use std::fmt::Write;

// Past these no rule tells longer packets apart.
const LONGEST: usize = 2048;

fn called(core: Core, call: Call) -> Outcome<u32> {
    match call {
        Call::Start(speed, memory_size) => firmware::start(memory_size, speed),
        Call::Configure(index, condition, e) => {
            firmware::configure(core, index as usize, condition, e)
        }
        Call::Arm(index, buffer, base, length) => {
            firmware::arm(core, index as usize, buffer, base, length)
        }
        Call::Disarm(index, buffer) => firmware::disarm(core, index as usize, buffer),
        Call::Halt(index) => firmware::set_halt(core, index as usize),
        Call::Clear(index) => firmware::clear_halt(core, index as usize),
        Call::Address(address) => firmware::set_address(core, address),
        Call::RecordEvents(index) => firmware::record_events(core, index as usize),
        Call::SystemEvents => firmware::system_events(core),
        Call::Reset(speed) => firmware::bus_reset(core, speed),
    }
}

// Whether a call answers a number beside its refusal.
fn has_number(call: Call) -> bool {
    matches!(
        call,
        Call::Disarm(_, _) | Call::RecordEvents(_) | Call::SystemEvents
    )
}

// The refusal's number as the script prints it, 0 being done.
fn refusal_of<T: Drop>(answer: Result<T, Refusal>) -> u8 {
    match answer {
        Ok(_) => 0,
        Err(refusal) => u8::from(refusal),
    }
}

// A good packet's PID and payload.
fn decode(bytes: &[u8], text: &mut Answer) -> fmt::Result {
    let read = wire::data::read(bytes);
    match read.verdict {
        Some(kind) => {
            write!(text, "good {} ", u8::from(kind))?;
            text.put_bytes(read.payload);
            Ok(())
        }
        None => write!(text, "not good"),
    }
}

impl Port {
    fn firmware(&mut self, call: Call, text: &mut Answer) -> fmt::Result {
        let o = called(self.core, call);
        self.core = o.core;
        write!(text, "{}", refusal_of(o.answer))?;
        if has_number(call) {
            // A refused call answers 0.
            write!(text, " {}", o.answer.unwrap_or(0))?;
        }
        Ok(())
    }

    // The reply's bytes, "-" where there are none, or the number of a SOF.
    fn packet(&mut self, bytes: &[u8], text: &mut Answer) -> fmt::Result {
        let lent = self.lent();
        let o = bus::packet(
            self.core,
            front_mut(&mut self.memory, lent.memory),
            front_mut(&mut self.reply, lent.reply),
            hexline::front(bytes, LONGEST),
        );
        self.core = o.core;
        match o.answer {
            Ok(bus::Answer::Silent) => write!(text, "0 -"),
            Ok(bus::Answer::Reply(n)) => {
                write!(text, "0 ")?;
                text.put_bytes(hexline::front(&self.reply, n));
                Ok(())
            }
            Ok(bus::Answer::Sof(frame)) => write!(text, "0 sof {frame}"),
            Err(refusal) => write!(text, "{refusal} -"),
        }
    }

    // The call never replies: its answer is the refusal alone.
    fn timeout(&mut self, text: &mut Answer) -> fmt::Result {
        let lent = self.lent();
        let o = bus::timeout(
            self.core,
            hexline::front(&self.memory, lent.memory as usize),
            hexline::front(&self.reply, lent.reply as usize),
        );
        self.core = o.core;
        write!(text, "{}", refusal_of(o.answer))
    }

    fn count(&mut self, number: u32, text: &mut Answer) -> fmt::Result {
        let answer = frame::count(&mut self.frame, number);
        write!(text, "{} {}", refusal_of(answer), answer.unwrap_or(0))
    }

    fn encode(&mut self, pid: u32, payload: &[u8], text: &mut Answer) -> fmt::Result {
        let reply = self.lent().reply;
        match wire::data::write(pid, payload, front_mut(&mut self.reply, reply)) {
            Ok(n) => {
                write!(text, "0 ")?;
                text.put_bytes(hexline::front(&self.reply, n));
                Ok(())
            }
            Err(refusal) => write!(text, "{refusal} -"),
        }
    }

    fn fill(&mut self, base: u32, bytes: &[u8], text: &mut Answer) -> fmt::Result {
        let start = base as usize;
        match self.memory.get_mut(start..start + bytes.len()) {
            Some(place) => {
                place.copy_from_slice(bytes);
                write!(text, "ok")
            }
            None => write!(text, "bad line"),
        }
    }

    fn show(&self, base: u32, length: u32, text: &mut Answer) -> fmt::Result {
        let start = base as usize;
        match self.memory.get(start..start + length as usize) {
            Some(bytes) => {
                text.put_bytes(bytes);
                Ok(())
            }
            None => write!(text, "bad line"),
        }
    }

    fn force(&mut self, forced: Forced, text: &mut Answer) -> fmt::Result {
        self.set(forced);
        write!(text, "ok")
    }

    fn relend(&mut self, lend: Option<Lent>, text: &mut Answer) -> fmt::Result {
        self.lend = lend;
        write!(text, "ok")
    }

    // What the line asks for; of a line that is none, nothing is done.
    pub fn play(&mut self, line: Option<Line>, bytes: &[u8], text: &mut Answer) -> fmt::Result {
        let Some(line) = line else {
            return write!(text, "bad line");
        };
        match line {
            Line::Firmware(call) => self.firmware(call, text),
            Line::Packet => self.packet(bytes, text),
            Line::Timeout => self.timeout(text),
            Line::Frame(n) => self.count(n, text),
            Line::Encode(pid) => self.encode(pid, bytes, text),
            Line::Decode => decode(bytes, text),
            Line::Lend(lend) => self.relend(lend, text),
            Line::Fill(base) => self.fill(base, bytes, text),
            Line::Show(base, length) => self.show(base, length, text),
            Line::Reply(length) => {
                text.put_bytes(hexline::front(&self.reply, length as usize));
                Ok(())
            }
            Line::State => write!(text, "{}", Shown(self.core)),
            Line::Force(forced) => self.force(forced, text),
        }
    }
}
