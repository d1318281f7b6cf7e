// The state of the core, as document 01 gives it under "State", and the test of whether it is sound.
#![tactic(auto)]

mod apart;
pub mod events;
mod fixed_list;
pub mod range;
pub mod served;
pub mod sound;
pub mod spans;
pub mod update;

use refusals::Refusal;

#[derive(Clone, Copy, Debug, PartialEq, Eq)]
pub enum Speed {
    Full,
    High,
}

// The variant that stands for zero comes first in each enum of a record. Enums of as many names are no twins: each has document 01's words.
#[derive(Clone, Copy, Debug, PartialEq, Eq)]
pub enum Condition {
    Off,
    Normal,
    Halted,
}

#[derive(Clone, Copy, Debug, PartialEq, Eq)]
pub enum Kind {
    Control,
    In,
    Out,
}

// What document 01 calls a record's type.
#[derive(Clone, Copy, Debug, PartialEq, Eq)]
pub enum Transfer {
    Control,
    Bulk,
    Interrupt,
}

// What configure makes of a record.
#[derive(Clone, Copy)]
pub struct Endpoint {
    pub kind: Kind,
    pub transfer: Transfer,
    pub number: u32,
    pub maximum: u32,
}

// True is DATA1. An OUT or IN record has one of the two, and keeps the other at DATA0.
#[derive(Clone, Copy)]
pub struct Toggles {
    pub out_side: bool,
    pub in_side: bool,
}

// Bits 0 to 6, in this order.
#[derive(Clone, Copy)]
pub struct RecordEvents {
    pub wait_ended: bool,
    pub not_good: bool,
    pub out_of_place: bool,
    pub first_used: bool,
    pub second_used: bool,
    pub not_taken: bool,
    pub short_packet: bool,
}

// Bits 20, 21, 22 and 28, in this order.
#[derive(Clone, Copy)]
pub struct SystemEvents {
    pub bad_token: bool,
    pub bad_pid: bool,
    pub unserved: bool,
    pub bus_reset: bool,
}

// The events of a record, by name and number.
#[derive(Clone, Copy, Debug, PartialEq, Eq)]
pub enum RecordEvent {
    WaitEnded = 0,
    NotGood = 1,
    OutOfPlace = 2,
    FirstUsed = 3,
    SecondUsed = 4,
    NotTaken = 5,
    ShortPacket = 6,
}

#[derive(Clone, Copy, Debug, PartialEq, Eq)]
pub enum SystemEvent {
    BadToken = 20,
    BadPid = 21,
    Unserved = 22,
    BusReset = 28,
}

// No Option of what is armed: these are document 01's two words for a descriptor, and demand 1's `in_span` is stated by them.
#[derive(Clone, Copy, Debug, PartialEq, Eq)]
pub enum Descriptor {
    Unallocated,
    Armed {
        base: u32,
        length: u32,
        done: u32,
        used: bool,
    },
}

// A mark or a number of a buffer is a bool, as the definitions and the contracts have it: false is buffer 0, `first`, and true is buffer 1, `second`.
// Condition and events stand first and together: eight bytes, which the zero test of an off record reads at once.
#[derive(Clone, Copy)]
pub struct Record {
    pub condition: Condition,
    pub events: RecordEvents,
    pub next: bool,
    pub toggles: Toggles,
    pub endpoint: Endpoint,
    pub first: Descriptor,
    pub second: Descriptor,
}

// What the data that is awaited follows.
#[derive(Clone, Copy, Debug, PartialEq, Eq)]
pub enum Stage {
    Setup,
    Out,
}

#[derive(Clone, Copy, Debug, PartialEq, Eq)]
pub enum Wait {
    Nothing,
    Data {
        record: usize,
        stage: Stage,
    },
    Acknowledge {
        record: usize,
        buffer: bool,
        length: u32,
    },
}

#[derive(Clone, Copy)]
pub struct Core {
    pub memory_size: u32,
    pub address: u32,
    pub speed: Speed,
    pub events: SystemEvents,
    pub records: [Record; 16],
    pub wait: Wait,
}

// What a call gives: the state after it, and what it answers or the refusal.
#[derive(Clone, Copy)]
pub struct Outcome<T> {
    pub core: Core,
    pub answer: Result<T, Refusal>,
}
