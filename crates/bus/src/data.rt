// The data that a record awaits.
ghost use Rattle.std.specs.Prelude.{◌≡◌};
ghost use Rattle.bus.specs.Data.{is_high, flipped_out, marked, acceptance, taking, after_out, setting_up, after_setup, staged, sequenced};

use crate::active::{Direction, Load};
use crate::turn::{Says, Turn};
use crate::{active, token, turn};
use state::{Condition, Record, RecordEvent, Speed, Stage, Toggles, Wait, range, update};
use wire::pid::Kind;

fn is_high(speed: Speed) -> bool
    ensures { result ≡ is_high speed }
{
    speed == Speed::High
}

// Beside `flipped_in`: a function of both sides would have the two bodies as its arms.
fn flipped_out(r: Record) -> Record
    ensures { result ≡ flipped_out r }
{
    Record {
        toggles: Toggles {
            out_side: !r.toggles.out_side,
            ..r.toggles
        },
        ..r
    }
}

// Event 6 if below maximum.
#[tactic(auto, unfolding(crate::specs::Data::marked))]
fn marked(r: Record, n: u32) -> Record
    ensures { result ≡ marked r n }
{
    if n < r.endpoint.maximum {
        return Record {
            events: update::noted(r.events, RecordEvent::ShortPacket),
            ..r
        };
    }
    r
}

#[tactic(auto, unfolding(crate::specs::Data::acceptance))]
fn acceptance(speed: Speed, r: Record) -> Says
    ensures { result ≡ acceptance speed r }
{
    let none_active = !active::is_active(Direction::Out, r);
    if is_high(speed) & !token::is_interrupt(r.endpoint.transfer) & none_active {
        return Says::Nyet;
    }
    Says::Ack
}

impl Load {
    #[tactic(auto, unfolding(crate::specs::Data::taking, crate::specs::Data::taken))]
    fn taking(self, speed: Speed) -> Turn
        ensures { result ≡ taking speed self.record self.count }
    {
        let second = active::chosen(Direction::Out, self.record);
        let place = active::place_of(update::buffer_of(self.record, second));
        let after = marked(flipped_out(self.filled(second)), self.count);
        Turn {
            after,
            wait: Wait::Nothing,
            store: Some(place),
            says: acceptance(speed, after),
        }
    }

    #[tactic(auto, unfolding(crate::specs::Data::after_out))]
    fn after_out(self, speed: Speed, toggle: bool) -> Turn
        ensures { result ≡ after_out speed self.record toggle self.count }
    {
        let r = self.record;
        if token::is_halted(r.condition) {
            return turn::saying(r, Says::Stall);
        }
        if toggle != r.toggles.out_side {
            return turn::saying(r, Says::Ack);
        }
        if !active::is_active(Direction::Out, r) {
            return turn::saying(r, Says::Nak);
        }
        if r.endpoint.maximum < self.count {
            return turn::saying(r, Says::Nak);
        }
        self.taking(speed)
    }

    #[tactic(auto, unfolding(crate::specs::Data::setting_up))]
    fn setting_up(self) -> Turn
        ensures { result ≡ setting_up self.record self.count }
    {
        let front = active::place_of(update::buffer_of(self.record, false));
        let data1 = Toggles {
            out_side: true,
            in_side: true,
        };
        Turn {
            after: Record {
                condition: Condition::Normal,
                toggles: data1,
                ..self.filled(false)
            },
            wait: Wait::Nothing,
            store: Some(front),
            says: Says::Ack,
        }
    }

    #[tactic(auto, unfolding(crate::specs::Data::after_setup))]
    fn after_setup(self, toggle: bool) -> Turn
        ensures { result ≡ after_setup self.record toggle self.count }
    {
        let front = update::buffer_of(self.record, false);
        if !toggle & (self.count == 8) & range::is_unused(front) {
            return self.setting_up();
        }
        turn::noting(self.record, RecordEvent::NotTaken)
    }

    fn staged(self, speed: Speed, stage: Stage, toggle: bool) -> Turn
        ensures { result ≡ staged speed stage self.record toggle self.count }
    {
        match stage {
            Stage::Setup => self.after_setup(toggle),
            Stage::Out => self.after_out(speed, toggle),
        }
    }

    pub(crate) fn sequenced(self, speed: Speed, stage: Stage, kind: Kind) -> Turn
        ensures { result ≡ sequenced speed stage self.record kind self.count }
    {
        match kind {
            Kind::Data0 => self.staged(speed, stage, false),
            Kind::Data1 => self.staged(speed, stage, true),
            _ => turn::noting(self.record, RecordEvent::OutOfPlace),
        }
    }
}
