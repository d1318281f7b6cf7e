// The tokens that are for a record.
ghost use Rattle.std.specs.Prelude.{◌≡◌};
ghost use Rattle.bus.specs.Tokens.{direction_of, is_halted, is_interrupt, on_out, on_setup, on_ping, sending, on_in, turn_of};

use crate::active::Direction;
use crate::turn::{Says, Turn};
use crate::{active, turn};
use state::{Condition, Record, RecordEvent, Stage, Transfer, Wait, range, update};

// What a token asks of a record.
#[derive(Clone, Copy, Debug, PartialEq, Eq)]
pub enum Asks {
    Out,
    Setup,
    Ping,
    In,
}

pub(crate) fn direction_of(asks: Asks) -> Direction
    ensures { result ≡ direction_of asks }
{
    match asks {
        Asks::Out | Asks::Setup | Asks::Ping => Direction::Out,
        Asks::In => Direction::In,
    }
}

pub(crate) fn is_halted(condition: Condition) -> bool
    ensures { result ≡ is_halted condition }
{
    condition == Condition::Halted
}

pub(crate) fn is_interrupt(transfer: Transfer) -> bool
    ensures { result ≡ is_interrupt transfer }
{
    transfer == Transfer::Interrupt
}

fn on_out(i: usize, r: Record) -> Turn
    ensures { result ≡ on_out i r }
{
    turn::waiting(
        r,
        Wait::Data {
            record: i,
            stage: Stage::Out,
        },
    )
}

#[tactic(auto, unfolding(crate::specs::Tokens::on_setup))]
fn on_setup(i: usize, r: Record) -> Turn
    ensures { result ≡ on_setup i r }
{
    if range::is_control(r.endpoint.kind) {
        return turn::waiting(
            r,
            Wait::Data {
                record: i,
                stage: Stage::Setup,
            },
        );
    }
    turn::noting(r, RecordEvent::OutOfPlace)
}

#[tactic(auto, unfolding(crate::specs::Tokens::on_ping))]
fn on_ping(r: Record) -> Turn
    ensures { result ≡ on_ping r }
{
    if is_interrupt(r.endpoint.transfer) {
        return turn::noting(r, RecordEvent::OutOfPlace);
    }
    if is_halted(r.condition) {
        return turn::saying(r, Says::Stall);
    }
    if active::is_active(Direction::Out, r) {
        return turn::saying(r, Says::Ack);
    }
    turn::saying(r, Says::Nak)
}

#[tactic(auto, unfolding(crate::specs::Tokens::sending))]
fn sending(i: usize, r: Record) -> Turn
    ensures { result ≡ sending i r }
{
    let buffer = active::chosen(Direction::In, r);
    let d = update::buffer_of(r, buffer);
    let length = r.endpoint.maximum.min(active::left_of(d));
    Turn {
        after: update::with_next(r, buffer),
        wait: Wait::Acknowledge {
            record: i,
            buffer,
            length,
        },
        store: None,
        says: Says::Data {
            toggle: r.toggles.in_side,
            from: active::place_of(d),
            count: length as usize,
        },
    }
}

#[tactic(auto, unfolding(crate::specs::Tokens::on_in))]
fn on_in(i: usize, r: Record) -> Turn
    ensures { result ≡ on_in i r }
{
    if is_halted(r.condition) {
        return turn::saying(r, Says::Stall);
    }
    if !active::is_active(Direction::In, r) {
        return turn::saying(r, Says::Nak);
    }
    sending(i, r)
}

pub(crate) fn turn_of(asks: Asks, i: usize, r: Record) -> Turn
    ensures { result ≡ turn_of asks i r }
{
    match asks {
        Asks::Out => on_out(i, r),
        Asks::Setup => on_setup(i, r),
        Asks::Ping => on_ping(r),
        Asks::In => on_in(i, r),
    }
}
