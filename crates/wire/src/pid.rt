// PIDs: what kind of packet a first byte says.
ghost use Rattle.std.specs.Prelude.{◌≡◌};
ghost use Rattle.wire.specs.Pid.{number as pid_number, kind_of, is_data, pid_of};

// The sixteen kinds, in the order of their numbers.
#[derive(Clone, Copy, Debug, PartialEq, Eq)]
pub enum Kind {
    Reserved,
    Out,
    Ack,
    Data0,
    Ping,
    Sof,
    Nyet,
    Data2,
    Split,
    In,
    Nak,
    Data1,
    Pre,
    Setup,
    Stall,
    Mdata,
}

impl From<Kind> for u8 {
    ghost from_gives = { λ kind n. n ≡ pid_number kind };

    fn from(kind: Kind) -> u8 {
        kind as u8
    }
}

// The kind of that number, by a match, as document 01 has it: a PID's low four bits are one of the sixteen, and any greater number names none.
#[tactic(auto, unfolding(crate::specs::Pid::kind_of))]
pub fn named(number: u32) -> Kind
    ensures { result ≡ kind_of number }
{
    match number {
        1 => Kind::Out,
        2 => Kind::Ack,
        3 => Kind::Data0,
        4 => Kind::Ping,
        5 => Kind::Sof,
        6 => Kind::Nyet,
        7 => Kind::Data2,
        8 => Kind::Split,
        9 => Kind::In,
        10 => Kind::Nak,
        11 => Kind::Data1,
        12 => Kind::Pre,
        13 => Kind::Setup,
        14 => Kind::Stall,
        15 => Kind::Mdata,
        _ => Kind::Reserved,
    }
}

// A PID byte: its kind, if the high four bits are the complement of the low four.
#[tactic(auto, unfolding(crate::specs::Pid::pid_of))]
pub fn read(byte: u8) -> Option<Kind>
    ensures { result ≡ pid_of byte }
{
    let low = byte % 16;
    (byte / 16 == 15 - low).then_some(named(low as u32))
}

// The data PIDs.
pub fn is_data(kind: Kind) -> bool
    ensures { result ≡ is_data kind }
{
    matches!(kind, Kind::Data0 | Kind::Data1 | Kind::Data2 | Kind::Mdata)
}
