// Lines by their first word. Each form has its number of words; any other line asks for nothing.
ghost use Rattle.std.specs.Prelude.{◌≡◌};
ghost use Rattle.script.specs.Words.{words_of};
ghost use Rattle.calls.specs.Script.{line_of, live_form, configure_form, events_form, lend_form};

use crate::argument::{at_most, said, whole, with_bytes};
use crate::forcing;
use crate::line::{Call, Lent, Line};
use crate::word::Verb;
use state::{Condition, Endpoint, Kind, Transfer};

// To normal or halted.
fn configure_live(index: u32, condition: Condition, line: &[u8]) -> Option<Line>
    ensures { result ≡ live_form index condition 3 (words_of line.now) }
{
    let endpoint = Endpoint {
        kind: said(line, 3)?,
        transfer: said(line, 4)?,
        number: said(line, 5)?,
        maximum: said(line, 6)?,
    };
    whole(
        line,
        7,
        Line::Firmware(Call::Configure(index, condition, endpoint)),
    )
}

// To off no other argument stands.
fn configure(line: &[u8]) -> Option<Line>
    ensures { result ≡ configure_form 1 (words_of line.now) }
{
    let index = said(line, 1)?;
    let condition = said(line, 2)?;
    if condition != Condition::Off {
        return configure_live(index, condition, line);
    }
    let endpoint = Endpoint {
        kind: Kind::Control,
        transfer: Transfer::Control,
        number: 0,
        maximum: 0,
    };
    whole(
        line,
        3,
        Line::Firmware(Call::Configure(index, condition, endpoint)),
    )
}

// Of a record, or of the system where no index stands.
fn events(line: &[u8]) -> Option<Line>
    ensures { result ≡ events_form 1 (words_of line.now) }
{
    if script::count(line) == 1 {
        return Some(Line::Firmware(Call::SystemEvents));
    }
    whole(line, 2, Line::Firmware(Call::RecordEvents(said(line, 1)?)))
}

fn lend(line: &[u8]) -> Option<Line>
    ensures { result ≡ lend_form 1 (words_of line.now) }
{
    if script::is(script::word(line, 1), b"default") {
        return whole(line, 2, Line::Lend(None));
    }
    let memory = at_most(line, 1, 131072)?;
    let reply = at_most(line, 2, 1040)?;
    whole(line, 3, Line::Lend(Some(Lent { memory, reply })))
}

// Row by row. `given` says whether the last word is bytes.
#[tactic(auto, unfolding(crate::specs::Script::line_of))]
pub fn read(line: &[u8], given: bool) -> Option<Line>
    ensures { result ≡ line_of line.now given }
{
    match said(line, 0)? {
        Verb::Start => whole(
            line,
            3,
            Line::Firmware(Call::Start(said(line, 1)?, said(line, 2)?)),
        ),
        Verb::Configure => configure(line),
        Verb::Arm => whole(
            line,
            5,
            Line::Firmware(Call::Arm(
                said(line, 1)?,
                said(line, 2)?,
                said(line, 3)?,
                said(line, 4)?,
            )),
        ),
        Verb::Disarm => whole(
            line,
            3,
            Line::Firmware(Call::Disarm(said(line, 1)?, said(line, 2)?)),
        ),
        Verb::Halt => whole(line, 2, Line::Firmware(Call::Halt(said(line, 1)?))),
        Verb::Clear => whole(line, 2, Line::Firmware(Call::Clear(said(line, 1)?))),
        Verb::Address => whole(line, 2, Line::Firmware(Call::Address(said(line, 1)?))),
        Verb::Events => events(line),
        Verb::Reset => whole(line, 2, Line::Firmware(Call::Reset(said(line, 1)?))),
        Verb::Packet => with_bytes(line, 2, given, Line::Packet),
        Verb::Timeout => whole(line, 1, Line::Timeout),
        Verb::Frame => whole(line, 2, Line::Frame(said(line, 1)?)),
        Verb::Encode => with_bytes(line, 3, given, Line::Encode(said(line, 1)?)),
        Verb::Decode => with_bytes(line, 2, given, Line::Decode),
        Verb::Lend => lend(line),
        Verb::Fill => with_bytes(line, 3, given, Line::Fill(said(line, 1)?)),
        Verb::Show => whole(line, 3, Line::Show(said(line, 1)?, at_most(line, 2, 4096)?)),
        Verb::Reply => whole(line, 2, Line::Reply(at_most(line, 1, 1040)?)),
        Verb::State => whole(line, 1, Line::State),
        Verb::Force => forcing::force(line),
    }
}
