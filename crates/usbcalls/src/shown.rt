// The whole state on one line.
use state::{Condition, Core, Descriptor, Kind, Record, Speed, Stage, Transfer, Wait, range};
use std::fmt;
use std::fmt::{Display, Formatter};

// A part of the state as it is printed. `Display` and state's types are both of other crates, and the words are the script's alone:
// hence this type, and an impl for each part, which is a table of its own.
#[derive(Clone, Copy)]
pub struct Shown<T>(pub T);

impl Display for Shown<Speed> {
    fn fmt<W: fmt::Write>(&self, f: &mut Formatter<W>) -> fmt::Result {
        f.write_str(match self.0 {
            Speed::Full => "full",
            Speed::High => "high",
        })
    }
}

impl Display for Shown<Condition> {
    fn fmt<W: fmt::Write>(&self, f: &mut Formatter<W>) -> fmt::Result {
        f.write_str(match self.0 {
            Condition::Off => "off",
            Condition::Normal => "normal",
            Condition::Halted => "halted",
        })
    }
}

impl Display for Shown<Kind> {
    fn fmt<W: fmt::Write>(&self, f: &mut Formatter<W>) -> fmt::Result {
        f.write_str(match self.0 {
            Kind::Control => "control",
            Kind::In => "in",
            Kind::Out => "out",
        })
    }
}

impl Display for Shown<Transfer> {
    fn fmt<W: fmt::Write>(&self, f: &mut Formatter<W>) -> fmt::Result {
        f.write_str(match self.0 {
            Transfer::Control => "control",
            Transfer::Bulk => "bulk",
            Transfer::Interrupt => "interrupt",
        })
    }
}

impl Display for Shown<Stage> {
    fn fmt<W: fmt::Write>(&self, f: &mut Formatter<W>) -> fmt::Result {
        f.write_str(match self.0 {
            Stage::Setup => "setup",
            Stage::Out => "out",
        })
    }
}

impl Display for Shown<bool> {
    fn fmt<W: fmt::Write>(&self, f: &mut Formatter<W>) -> fmt::Result {
        write!(f, "{}", self.0 as u8)
    }
}

impl Display for Shown<Wait> {
    fn fmt<W: fmt::Write>(&self, f: &mut Formatter<W>) -> fmt::Result {
        match self.0 {
            Wait::Nothing => write!(f, "nothing"),
            Wait::Data { record, stage } => write!(f, "data {record} {}", Shown(stage)),
            Wait::Acknowledge {
                record,
                buffer,
                length,
            } => write!(f, "ack {record} {} {length}", Shown(buffer)),
        }
    }
}

impl Display for Shown<Descriptor> {
    fn fmt<W: fmt::Write>(&self, f: &mut Formatter<W>) -> fmt::Result {
        match self.0 {
            Descriptor::Unallocated => write!(f, "off"),
            Descriptor::Armed {
                base,
                length,
                done,
                used,
            } => write!(f, "{base},{length},{done},{}", Shown(used)),
        }
    }
}

// What configure set, what traffic moves, and the buffers.
impl Display for Shown<Record> {
    fn fmt<W: fmt::Write>(&self, f: &mut Formatter<W>) -> fmt::Result {
        let r = self.0;
        let e = r.endpoint;
        let events = u32::from(r.events);
        write!(
            f,
            "{} {} {} {} {}",
            Shown(r.condition),
            Shown(e.kind),
            Shown(e.transfer),
            e.number,
            e.maximum
        )?;
        write!(
            f,
            " {} {events} {} {}",
            Shown(r.next),
            Shown(r.toggles.out_side),
            Shown(r.toggles.in_side)
        )?;
        write!(f, " {} {}", Shown(r.first), Shown(r.second))
    }
}

// An off record that is all zero is left out.
fn is_shown(r: Record) -> bool {
    range::is_live(r.condition) || !range::is_zero(r)
}

impl Display for Shown<Core> {
    fn fmt<W: fmt::Write>(&self, f: &mut Formatter<W>) -> fmt::Result {
        let core = self.0;
        let events = u32::from(core.events);
        write!(
            f,
            "M {} address {} speed {} events {events} wait {}",
            core.memory_size,
            core.address,
            Shown(core.speed),
            Shown(core.wait)
        )?;
        for (i, r) in core.records.iter().enumerate() {
            if is_shown(*r) {
                write!(f, " | {i} {}", Shown(*r))?;
            }
        }
        Ok(())
    }
}
