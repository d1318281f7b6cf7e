// The calls, the line as far as it was taken, and the text of its answer.
ghost use Rattle.std.specs.Prelude.{List, [], ◌++◌, ℕ};
ghost use Rattle.script.specs.Intake.{Stands};

use crate::Answer;
use crate::port::{MEMORY, Port};
use lines::{Taker, Text};
use script::Intake;
use std::fmt::Write;
use std::{fmt, io};

// What `script` keeps of a line.
const KEPT: usize = 136;

// One byte more than the memory has, so that bytes past its end are told.
const BUFFER: usize = MEMORY + 1;

#[derive(Drop)]
pub struct Desk {
    port: Port,
    intake: Intake,
    kept: [u8; KEPT],
    buffer: [u8; BUFFER],
    text: Answer,
}

impl Desk {
    pub fn new() -> Desk {
        Desk {
            port: Port::new(),
            intake: script::begin(),
            kept: [0; KEPT],
            buffer: [0; BUFFER],
            text: Text::new(),
        }
    }

    // An empty line, or a remark.
    fn is_silent(&self) -> bool {
        matches!(script::line(self.intake, &self.kept), [] | [b'#', ..])
    }

    fn play(&mut self) -> fmt::Result {
        let line = script::line(self.intake, &self.kept);
        let asked = calls::read(line, script::is_bytes(self.intake, &self.kept));
        let bytes = script::bytes(self.intake, &self.buffer);
        self.port.play(asked, bytes, &mut self.text)?;
        self.text.write_str("\n")
    }
}

impl Taker for Desk {
    ghost taken_gives = { λ d part e. (line : List ℕ) → Stands line d.intake d.kept d.buffer → Stands (line ++ part) e.intake e.kept e.buffer };

    ghost answered_gives = { λ _ e. Stands [] e.intake e.kept e.buffer };

    ghost ended_gives = { λ _ e. Stands [] e.intake e.kept e.buffer };

    fn taken(&mut self, part: &[u8]) {
        self.intake = script::taken(self.intake, &mut self.kept, &mut self.buffer, part);
    }

    // An answer is one write, so that a host reads it whole; a silent line has none, and of no bytes no write is made.
    fn answered(&mut self, rt: &impl Print) -> io::Result<()> {
        self.text.clear();
        if !self.is_silent() {
            let _ = self.play();
        }
        self.intake = script::begin();
        rt.write_all(self.text.as_bytes())
    }

    // A line that has no end is answered all the same.
    fn ended(&mut self, rt: &impl Print) -> io::Result<()> {
        self.answered(rt)
    }
}
