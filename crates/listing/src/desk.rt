// The state between two lines, and the fixed set-up.
ghost use Rattle.std.specs.Prelude.{◌≡◌, List, [], ◌++◌, ℕ, ◌+◌, ◌<◌, min, length};
ghost use Rattle.state.specs.Update.{record_at};
ghost use Rattle.state.specs.Ranges.{done_of};
ghost use Rattle.firmware.specs.Records.{configure_of};
ghost use Rattle.hexline.specs.Line.{bytes_of, Stands};
ghost use Rattle.listing.specs.Listing.{Taken, Answered};
ghost use Rattle.listing.specs.SetUp.{bulk, set_up};

use crate::capture::KEPT;
use crate::output::Output;
use bus::Answer;
use hexline::Line;
use lines::Taker;
use state::{Condition, Core, Endpoint, Kind, Speed, Transfer, range, update};
use std::io;

// The records of the set-up, by index.
const OUT: usize = 0;

const IN: usize = 1;

// M of the set-up.
const MEMORY: usize = 256;

// The core and its memory, the line as far as it was read, how many characters that is, and the output.
#[derive(Drop)]
pub struct Desk {
    pub core: Core,
    pub memory: [u8; MEMORY],
    pub line: Line,
    pub packet: [u8; KEPT],
    pub size: u32,
    pub output: Output,
}

impl Desk {
    // At the beginning of the first line.
    pub fn new(output: Output) -> Desk
        ensures { (result.core ≡ set_up) × Taken [] result }
    {
        Desk {
            core: set_up(),
            memory: [0; MEMORY],
            line: hexline::begin(),
            packet: [0; KEPT],
            size: 0,
            output,
        }
    }

    // How many bytes the line has, those included for which the packet has no room.
    fn original(&self) -> u64
        ensures { (line : List ℕ) → Taken line self.now → result ≡ min (length (bytes_of line)) 2147483647 }
    {
        u64::from(self.size / 2)
    }

    // The done count of a record's buffer 0, and 0 where it is not armed.
    fn done(&self, index: usize) -> u32
        ensures { result ≡ done_of (record_at self.now.core index).first }
    {
        range::done_of(update::record_at(self.core, index).first)
    }
}

impl Taker for Desk {
    ghost taken_gives = { λ d part e. (e.core ≡ d.core) × (e.memory ≡ d.memory) × ((line : List ℕ) → Taken line d → Taken (line ++ part) e) };

    ghost answered_gives = { λ d e. Taken [] e × ((line : List ℕ) → Stands line d.line d.packet → Answered line d.packet d.core d.memory e.core e.memory) };

    ghost ended_gives = { λ d e. (line : List ℕ) → 0 < length line → Stands line d.line d.packet → Answered line d.packet d.core d.memory e.core e.memory };

    fn taken(&mut self, part: &[u8]) {
        self.line = hexline::read(self.line, &mut self.packet, part);
        self.size = more(self.size, part);
    }

    // A good line is a packet; any other makes no call.
    fn answered(&mut self, rt: &impl Print) -> io::Result<()> {
        let line = self.line;
        let original = self.original();
        self.line = hexline::begin();
        self.size = 0;
        if !hexline::is_good(line) {
            return self.output.unanswered(rt);
        }
        let arrived = hexline::kept(line, &self.packet);
        // The core has no heap: it answers how long the reply is, and the bytes stand in fixed memory beside it.
        let mut reply = [0u8; 1027];
        let o = bus::packet(self.core, &mut self.memory, &mut reply, arrived);
        self.core = o.core;
        let replied = match o.answer {
            Ok(Answer::Reply(n)) => Some(hexline::front(&reply, n)),
            _ => None,
        };
        self.output.answered(rt, original, arrived, replied)
    }

    // A line that has no end is answered all the same, and the output is closed.
    fn ended(&mut self, rt: &impl Print) -> io::Result<()> {
        if !hexline::is_empty(self.line) {
            self.answered(rt)?;
        }
        self.output.ended(rt, self.done(OUT), self.done(IN))
    }
}

// So many characters more; the largest count stands for all beyond it.
fn more(size: u32, part: &[u8]) -> u32
    ensures { result ≡ min (size + length part.now) 4294967295 }
{
    size.saturating_add(u32::try_from(part.len()).unwrap_or(u32::MAX))
}

fn bulk(core: Core, index: usize, kind: Kind) -> Core
    ensures { result ≡ (configure_of core index Condition.Normal (bulk kind)).core }
{
    let endpoint = Endpoint {
        kind,
        transfer: Transfer::Bulk,
        number: 1,
        maximum: 8,
    };
    firmware::configure(core, index, Condition::Normal, endpoint).core
}

fn set_up() -> Core
    ensures { result ≡ set_up }
{
    let started = firmware::start(MEMORY as u32, Speed::Full).core;
    let addressed = firmware::set_address(started, 1).core;
    let out = bulk(addressed, OUT, Kind::Out);
    let out_armed = firmware::arm(out, OUT, 0, 16, 8).core;
    let both = bulk(out_armed, IN, Kind::In);
    firmware::arm(both, IN, 0, 32, 1).core
}
