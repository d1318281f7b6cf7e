// The lines that set a field with no judgement.
ghost use Rattle.std.specs.Prelude.{◌≡◌};
ghost use Rattle.script.specs.Words.{words_of, word_at};
ghost use Rattle.calls.specs.Script.{force_wait, set_of, force_record, armed_form, force_buffer, force_frame, force_form};

use crate::argument::{at_most, said, whole};
use crate::line::{Field, Forced, Line};
use crate::word::{FieldName, Waiting, What};
use frame::Frame;
use state::{Descriptor, Wait};

fn wait(line: &[u8]) -> Option<Line>
    ensures { result ≡ force_wait 2 (words_of line.now) }
{
    match said(line, 2)? {
        Waiting::Nothing => whole(line, 3, Line::Force(Forced::Wait(Wait::Nothing))),
        Waiting::Data => {
            let record = at_most(line, 3, 255)? as usize;
            let stage = said(line, 4)?;
            whole(
                line,
                5,
                Line::Force(Forced::Wait(Wait::Data { record, stage })),
            )
        }
        Waiting::Acknowledge => {
            let record = at_most(line, 3, 255)? as usize;
            let buffer = said(line, 4)?;
            let length = said(line, 5)?;
            let wait = Wait::Acknowledge {
                record,
                buffer,
                length,
            };
            whole(line, 6, Line::Force(Forced::Wait(wait)))
        }
    }
}

// What the word behind a field's name sets it to.
fn field(line: &[u8], name: FieldName) -> Option<Field>
    ensures { result ≡ set_of name (word_at 4 line.now) }
{
    match name {
        FieldName::Condition => said(line, 4).map(Field::Condition),
        FieldName::Kind => said(line, 4).map(Field::Kind),
        FieldName::Type => said(line, 4).map(Field::Type),
        FieldName::Number => at_most(line, 4, 255).map(Field::Number),
        FieldName::Maximum => said(line, 4).map(Field::Maximum),
        FieldName::Next => said(line, 4).map(Field::Next),
        FieldName::Events => said(line, 4).map(Field::Events),
        FieldName::OutToggle => said(line, 4).map(Field::OutToggle),
        FieldName::InToggle => said(line, 4).map(Field::InToggle),
    }
}

fn record(line: &[u8]) -> Option<Line>
    ensures { result ≡ force_record 2 (words_of line.now) }
{
    let index = at_most(line, 2, 15)?;
    let name = said(line, 3)?;
    let set = field(line, name)?;
    whole(line, 5, Line::Force(Forced::Record(index, set)))
}

fn armed(index: u32, second: bool, line: &[u8]) -> Option<Line>
    ensures { result ≡ armed_form index second 4 (words_of line.now) }
{
    let d = Descriptor::Armed {
        base: said(line, 4)?,
        length: said(line, 5)?,
        done: said(line, 6)?,
        used: said(line, 7)?,
    };
    whole(line, 8, Line::Force(Forced::Buffer(index, second, d)))
}

// Off, or the four fields.
fn buffer(line: &[u8]) -> Option<Line>
    ensures { result ≡ force_buffer 2 (words_of line.now) }
{
    let index = at_most(line, 2, 15)?;
    let second = said(line, 3)?;
    if script::is(script::word(line, 4), b"off") {
        return whole(
            line,
            5,
            Line::Force(Forced::Buffer(index, second, Descriptor::Unallocated)),
        );
    }
    armed(index, second, line)
}

fn frame(line: &[u8]) -> Option<Line>
    ensures { result ≡ force_frame 2 (words_of line.now) }
{
    let next = Frame {
        seen: said(line, 2)?,
        number: at_most(line, 3, 65535)?,
        repeats: at_most(line, 4, 255)?,
    };
    whole(line, 5, Line::Force(Forced::Frame(next)))
}

pub fn force(line: &[u8]) -> Option<Line>
    ensures { result ≡ force_form 1 (words_of line.now) }
{
    match said(line, 1)? {
        What::Memory => whole(line, 3, Line::Force(Forced::Memory(said(line, 2)?))),
        What::Address => whole(
            line,
            3,
            Line::Force(Forced::Address(at_most(line, 2, 255)?)),
        ),
        What::Events => whole(line, 3, Line::Force(Forced::Events(said(line, 2)?))),
        What::Wait => wait(line),
        What::Record => record(line),
        What::Buffer => buffer(line),
        What::Frame => frame(line),
    }
}
