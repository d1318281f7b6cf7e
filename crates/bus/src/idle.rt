// A packet that is read with no wait.
ghost use Rattle.std.specs.Prelude.{◌≡◌};
ghost use Rattle.bus.specs.Idle.{first_pid, found_as, addressed, framed, pinged, by_kind, meeting, no_wait};

use crate::token::Asks;
use crate::turn::{Says, Step};
use crate::{search, token, turn};
use state::{Core, Speed, SystemEvent, update};
use wire::pid;
use wire::pid::Kind;
use wire::token::Token;

// What a packet is to the core: nothing, an event, a frame, or a token for the record found.
#[derive(Clone, Copy)]
pub enum Met {
    Nothing,
    Trouble(SystemEvent),
    Frame(u16),
    Token { asks: Asks, at: usize },
}

pub(crate) fn first_pid(packet: &[u8]) -> Option<Kind>
    ensures { result ≡ first_pid packet.now }
{
    pid::read(*packet.first()?)
}

fn found_as(asks: Asks, found: Option<usize>) -> Met
    ensures { result ≡ found_as asks found }
{
    match found {
        None => Met::Trouble(SystemEvent::Unserved),
        Some(at) => Met::Token { asks, at },
    }
}

fn addressed(core: Core, asks: Asks, token: Option<Token>) -> Met
    ensures { result ≡ addressed core asks token }
{
    let Some(token) = token else {
        return Met::Trouble(SystemEvent::BadToken);
    };
    if u32::from(token.address) != core.address {
        return Met::Nothing;
    }
    let direction = token::direction_of(asks);
    found_as(
        asks,
        search::find(u32::from(token.endpoint), direction, core),
    )
}

fn framed(token: Option<Token>) -> Met
    ensures { result ≡ framed token }
{
    match token {
        None => Met::Trouble(SystemEvent::BadToken),
        Some(token) => Met::Frame(token.frame),
    }
}

// PING is of high speed alone.
fn pinged(core: Core, speed: Speed, packet: &[u8]) -> Met
    ensures { result ≡ pinged core speed packet.now }
{
    match speed {
        Speed::Full => Met::Nothing,
        Speed::High => addressed(core, Asks::Ping, wire::token::read(packet)),
    }
}

fn by_kind(core: Core, kind: Kind, packet: &[u8]) -> Met
    ensures { result ≡ by_kind core kind packet.now }
{
    match kind {
        Kind::Out => addressed(core, Asks::Out, wire::token::read(packet)),
        Kind::In => addressed(core, Asks::In, wire::token::read(packet)),
        Kind::Setup => addressed(core, Asks::Setup, wire::token::read(packet)),
        Kind::Sof => framed(wire::token::read(packet)),
        Kind::Ping => pinged(core, core.speed, packet),
        _ => Met::Nothing,
    }
}

#[tactic(auto, unfolding(crate::specs::Idle::meeting))]
fn meeting(core: Core, packet: &[u8]) -> Met
    ensures { result ≡ meeting core packet.now }
{
    match first_pid(packet) {
        None => Met::Trouble(SystemEvent::BadPid),
        Some(kind) => by_kind(core, kind, packet),
    }
}

#[tactic(auto, unfolding(crate::specs::Idle::no_wait))]
pub(crate) fn no_wait(core: Core, packet: &[u8]) -> Step
    ensures { result ≡ no_wait core packet.now }
{
    match meeting(core, packet) {
        Met::Nothing => turn::unchanged(core, Says::Silence),
        Met::Trouble(event) => turn::signalling(core, event),
        Met::Frame(frame) => turn::unchanged(core, Says::Frame(frame)),
        Met::Token { asks, at } => {
            turn::placed(
                core,
                at,
                token::turn_of(asks, at, update::record_at(core, at)),
            )
        }
    }
}
