// What a line asks for.
use frame::Frame;
use state::{
    Condition, Descriptor, Endpoint, Kind, RecordEvents, Speed, SystemEvents, Transfer, Wait,
};

// A call of the firmware, with its arguments as written.
#[derive(Clone, Copy)]
pub enum Call {
    Start(Speed, u32),
    Configure(u32, Condition, Endpoint),
    Arm(u32, u32, u32, u32),
    Disarm(u32, u32),
    Halt(u32),
    Clear(u32),
    Address(u32),
    RecordEvents(u32),
    SystemEvents,
    Reset(Speed),
}

// A field of a record, and what it is set to.
#[derive(Clone, Copy)]
pub enum Field {
    Condition(Condition),
    Kind(Kind),
    Type(Transfer),
    Number(u32),
    Maximum(u32),
    Next(bool),
    Events(RecordEvents),
    OutToggle(bool),
    InToggle(bool),
}

// A field that is set with no judgement.
#[derive(Clone, Copy)]
pub enum Forced {
    Memory(u32),
    Address(u32),
    Events(SystemEvents),
    Wait(Wait),
    Record(u32, Field),
    Buffer(u32, bool, Descriptor),
    Frame(Frame),
}

// How many bytes the calls lend of the memory and of the reply buffer.
#[derive(Clone, Copy)]
pub struct Lent {
    pub memory: u32,
    pub reply: u32,
}

// The bytes of packet, encode, decode and fill stand beside it. Lend without numbers goes back to the first M and 1,027.
#[derive(Clone, Copy)]
pub enum Line {
    Firmware(Call),
    Packet,
    Timeout,
    Frame(u32),
    Encode(u32),
    Decode,
    Lend(Option<Lent>),
    Fill(u32),
    Show(u32, u32),
    Reply(u32),
    State,
    Force(Forced),
}
