// Fields set with no judgement: by the updates that are proved to change that field alone, where there is one.
use crate::port::Port;
use calls::{Field, Forced};
use state::{Endpoint, Record, Toggles, update};

fn with_field(r: Record, field: Field) -> Record {
    let e = r.endpoint;
    match field {
        Field::Condition(condition) => update::with_condition(r, condition),
        Field::Kind(kind) => Record {
            endpoint: Endpoint { kind, ..e },
            ..r
        },
        Field::Type(transfer) => Record {
            endpoint: Endpoint { transfer, ..e },
            ..r
        },
        Field::Number(number) => Record {
            endpoint: Endpoint { number, ..e },
            ..r
        },
        Field::Maximum(maximum) => Record {
            endpoint: Endpoint { maximum, ..e },
            ..r
        },
        Field::Next(next) => update::with_next(r, next),
        Field::Events(events) => update::with_events(r, events),
        Field::OutToggle(out_side) => update::with_toggles(
            r,
            Toggles {
                out_side,
                ..r.toggles
            },
        ),
        Field::InToggle(in_side) => update::with_toggles(
            r,
            Toggles {
                in_side,
                ..r.toggles
            },
        ),
    }
}

impl Port {
    pub fn set(&mut self, forced: Forced) {
        match forced {
            Forced::Memory(memory_size) => self.core.memory_size = memory_size,
            Forced::Address(address) => self.core = update::with_address(self.core, address),
            Forced::Events(events) => self.core = update::with_system_events(self.core, events),
            Forced::Wait(wait) => self.core = update::with_wait(self.core, wait),
            Forced::Record(index, field) => {
                let i = index as usize;
                let r = update::record_at(self.core, i);
                self.core = update::with_record(self.core, i, with_field(r, field));
            }
            Forced::Buffer(index, second, d) => {
                let i = index as usize;
                let r = update::record_at(self.core, i);
                self.core = update::with_record(self.core, i, update::with_buffer(r, second, d));
            }
            Forced::Frame(frame) => self.frame = frame,
        }
    }
}
