// The values that words say: numbers, and those that have a name. Of the impls of one shape each is its table alone, and all share one search.
ghost use Rattle.script.specs.Numbers.{number_of};
ghost use Rattle.calls.specs.Forms.{bit_of, record_events_of, system_events_of, speed_of, condition_of, kind_of, transfer_of, stage_of};
ghost use Rattle.calls.specs.Script.{verb_of, what_of, waiting_of, field_of};

use crate::argument::FromWord;
use state::{Condition, Kind, RecordEvents, Speed, Stage, SystemEvents, Transfer};

// The first word.
#[derive(Clone, Copy)]
pub enum Verb {
    Start,
    Configure,
    Arm,
    Disarm,
    Halt,
    Clear,
    Address,
    Events,
    Reset,
    Packet,
    Timeout,
    Frame,
    Encode,
    Decode,
    Lend,
    Fill,
    Show,
    Reply,
    State,
    Force,
}

// What is forced.
#[derive(Clone, Copy)]
pub enum What {
    Memory,
    Address,
    Events,
    Wait,
    Record,
    Buffer,
    Frame,
}

// The wait that is forced.
#[derive(Clone, Copy)]
pub enum Waiting {
    Nothing,
    Data,
    Acknowledge,
}

// The field of a record that is forced.
#[derive(Clone, Copy)]
pub enum FieldName {
    Condition,
    Kind,
    Type,
    Number,
    Maximum,
    Next,
    Events,
    OutToggle,
    InToggle,
}

impl FromWord for u32 {
    ghost says = { number_of };

    fn from_word(word: &[u8]) -> Option<u32> {
        script::as_number(word)
    }
}

#[tactic(auto, unfolding(crate::specs::Forms::bit_of))]
impl FromWord for bool {
    ghost says = { bit_of };

    fn from_word(word: &[u8]) -> Option<bool> {
        match u32::from_word(word)? {
            0 => Some(false),
            1 => Some(true),
            _ => None,
        }
    }
}

#[tactic(auto, unfolding(crate::specs::Forms::record_events_of))]
impl FromWord for RecordEvents {
    ghost says = { record_events_of };

    fn from_word(word: &[u8]) -> Option<RecordEvents> {
        RecordEvents::try_from(u32::from_word(word)?).ok()
    }
}

#[tactic(auto, unfolding(crate::specs::Forms::system_events_of))]
impl FromWord for SystemEvents {
    ghost says = { system_events_of };

    fn from_word(word: &[u8]) -> Option<SystemEvents> {
        SystemEvents::try_from(u32::from_word(word)?).ok()
    }
}

#[tactic(auto, unfolding(crate::specs::Forms::speed_of))]
impl FromWord for Speed {
    ghost says = { speed_of };

    fn from_word(word: &[u8]) -> Option<Speed> {
        script::beside(word, &[("full", Speed::Full), ("high", Speed::High)])
    }
}

#[tactic(auto, unfolding(crate::specs::Forms::condition_of))]
impl FromWord for Condition {
    ghost says = { condition_of };

    fn from_word(word: &[u8]) -> Option<Condition> {
        script::beside(
            word,
            &[
                ("off", Condition::Off),
                ("normal", Condition::Normal),
                ("halted", Condition::Halted),
            ],
        )
    }
}

#[tactic(auto, unfolding(crate::specs::Forms::kind_of))]
impl FromWord for Kind {
    ghost says = { kind_of };

    fn from_word(word: &[u8]) -> Option<Kind> {
        script::beside(
            word,
            &[
                ("control", Kind::Control),
                ("in", Kind::In),
                ("out", Kind::Out),
            ],
        )
    }
}

#[tactic(auto, unfolding(crate::specs::Forms::transfer_of))]
impl FromWord for Transfer {
    ghost says = { transfer_of };

    fn from_word(word: &[u8]) -> Option<Transfer> {
        script::beside(
            word,
            &[
                ("control", Transfer::Control),
                ("bulk", Transfer::Bulk),
                ("interrupt", Transfer::Interrupt),
            ],
        )
    }
}

#[tactic(auto, unfolding(crate::specs::Forms::stage_of))]
impl FromWord for Stage {
    ghost says = { stage_of };

    fn from_word(word: &[u8]) -> Option<Stage> {
        script::beside(word, &[("setup", Stage::Setup), ("out", Stage::Out)])
    }
}

#[tactic(auto, unfolding(crate::specs::Script::verb_of))]
impl FromWord for Verb {
    ghost says = { verb_of };

    fn from_word(word: &[u8]) -> Option<Verb> {
        script::beside(
            word,
            &[
                ("start", Verb::Start),
                ("configure", Verb::Configure),
                ("arm", Verb::Arm),
                ("disarm", Verb::Disarm),
                ("halt", Verb::Halt),
                ("clear", Verb::Clear),
                ("address", Verb::Address),
                ("events", Verb::Events),
                ("reset", Verb::Reset),
                ("packet", Verb::Packet),
                ("timeout", Verb::Timeout),
                ("frame", Verb::Frame),
                ("encode", Verb::Encode),
                ("decode", Verb::Decode),
                ("lend", Verb::Lend),
                ("fill", Verb::Fill),
                ("show", Verb::Show),
                ("reply", Verb::Reply),
                ("state", Verb::State),
                ("force", Verb::Force),
            ],
        )
    }
}

#[tactic(auto, unfolding(crate::specs::Script::what_of))]
impl FromWord for What {
    ghost says = { what_of };

    fn from_word(word: &[u8]) -> Option<What> {
        script::beside(
            word,
            &[
                ("memory", What::Memory),
                ("address", What::Address),
                ("events", What::Events),
                ("wait", What::Wait),
                ("record", What::Record),
                ("buffer", What::Buffer),
                ("frame", What::Frame),
            ],
        )
    }
}

#[tactic(auto, unfolding(crate::specs::Script::waiting_of))]
impl FromWord for Waiting {
    ghost says = { waiting_of };

    fn from_word(word: &[u8]) -> Option<Waiting> {
        script::beside(
            word,
            &[
                ("nothing", Waiting::Nothing),
                ("data", Waiting::Data),
                ("ack", Waiting::Acknowledge),
            ],
        )
    }
}

#[tactic(auto, unfolding(crate::specs::Script::field_of))]
impl FromWord for FieldName {
    ghost says = { field_of };

    fn from_word(word: &[u8]) -> Option<FieldName> {
        script::beside(
            word,
            &[
                ("condition", FieldName::Condition),
                ("kind", FieldName::Kind),
                ("type", FieldName::Type),
                ("number", FieldName::Number),
                ("max", FieldName::Maximum),
                ("next", FieldName::Next),
                ("events", FieldName::Events),
                ("out", FieldName::OutToggle),
                ("in", FieldName::InToggle),
            ],
        )
    }
}
