// The ranges of a record: document 01, "State". Each test takes one by one what its definition names, as `misplaced`.
ghost use Rattle.std.specs.Prelude.{◌≡◌};
ghost use Rattle.state.specs.Ranges.{live, is_control, is_control_type, small_size, maximum_fits, endpoint_fits, toggles_fit, out_side, no_multiple, misplaced, mark_fits, descriptor_fits, is_armed, is_unused, done_of, live_fits, any_event, is_zero};

use crate::{
    Condition, Descriptor, Endpoint, Kind, Record, RecordEvents, Speed, Toggles, Transfer,
};

pub fn is_live(condition: Condition) -> bool
    ensures { result ≡ live condition }
{
    condition != Condition::Off
}

pub fn is_control(kind: Kind) -> bool
    ensures { result ≡ is_control kind }
{
    kind == Kind::Control
}

fn is_control_type(transfer: Transfer) -> bool
    ensures { result ≡ is_control_type transfer }
{
    transfer == Transfer::Control
}

fn is_small_size(m: u32) -> bool
    ensures { result ≡ small_size m }
{
    matches!(m, 8 | 16 | 32 | 64)
}

fn maximum_fits(speed: Speed, transfer: Transfer, m: u32) -> bool
    ensures { result ≡ maximum_fits speed transfer m }
{
    match (speed, transfer) {
        (Speed::Full, Transfer::Control | Transfer::Bulk) => is_small_size(m),
        (Speed::Full, Transfer::Interrupt) => (1..=64).contains(&m),
        (Speed::High, Transfer::Control) => m == 64,
        (Speed::High, Transfer::Bulk) => m == 512,
        (Speed::High, Transfer::Interrupt) => (1..=1024).contains(&m),
    }
}

#[tactic(auto, unfolding(crate::specs::Ranges::endpoint_fits))]
pub fn endpoint_fits(speed: Speed, e: Endpoint) -> bool
    ensures { result ≡ endpoint_fits speed e }
{
    (e.number <= 15)
        & (is_control(e.kind) == is_control_type(e.transfer))
        & maximum_fits(speed, e.transfer, e.maximum)
}

fn toggles_fit(kind: Kind, t: Toggles) -> bool
    ensures { result ≡ toggles_fit kind t }
{
    match kind {
        Kind::Control => true,
        Kind::In => !t.out_side,
        Kind::Out => !t.in_side,
    }
}

// Whether buffer 0 or 1 of a record of this kind is of the OUT side. A match, as its definition is: an arm is no constant.
pub fn on_out_side(kind: Kind, second: bool) -> bool
    ensures { result ≡ out_side kind second }
{
    match kind {
        Kind::Control => !second,
        Kind::In => false,
        Kind::Out => true,
    }
}

// A length that is 0 or no multiple of the maximum.
fn is_no_multiple(length: u32, maximum: u32) -> bool
    ensures { result ≡ no_multiple length maximum }
{
    length == 0 || maximum == 0 || length % maximum != 0
}

// Refusal 12 of a span. The sum is taken where it cannot wrap.
#[tactic(auto, unfolding(crate::specs::Ranges::misplaced))]
pub fn is_misplaced(memory: u32, out: bool, maximum: u32, base: u32, length: u32) -> bool
    ensures { result ≡ misplaced memory out maximum base length }
{
    131070 < base
        || 16383 < length
        || memory < base + length
        || out && is_no_multiple(length, maximum)
}

#[tactic(auto, unfolding(crate::specs::Ranges::mark_fits))]
fn mark_fits(out: bool, maximum: u32, length: u32, left: u32, used: bool) -> bool
    ensures { result ≡ mark_fits out maximum length left used }
{
    if out {
        used == (left < maximum)
    } else if used {
        left == 0
    } else {
        (0 < left) | (length == 0)
    }
}

fn descriptor_fits(memory: u32, out: bool, maximum: u32, d: Descriptor) -> bool
    ensures { result ≡ descriptor_fits memory out maximum d }
{
    match d {
        Descriptor::Unallocated => true,
        Descriptor::Armed {
            base,
            length,
            done,
            used,
        } => {
            !is_misplaced(memory, out, maximum, base, length)
                && done <= length
                && mark_fits(out, maximum, length, length - done, used)
        }
    }
}

pub fn is_armed(d: Descriptor) -> bool
    ensures { result ≡ is_armed d }
{
    matches!(d, Descriptor::Armed { .. })
}

pub fn is_unused(d: Descriptor) -> bool
    ensures { result ≡ is_unused d }
{
    matches!(d, Descriptor::Armed { used: false, .. })
}

pub fn done_of(d: Descriptor) -> u32
    ensures { result ≡ done_of d }
{
    match d {
        Descriptor::Unallocated => 0,
        Descriptor::Armed { done, .. } => done,
    }
}

fn has_event(e: RecordEvents) -> bool
    ensures { result ≡ any_event e }
{
    e.wait_ended
        | e.not_good
        | e.out_of_place
        | e.first_used
        | e.second_used
        | e.not_taken
        | e.short_packet
}

// Field by field and by `&`: sixteen off records take 389 instructions so, and 625 by a derived `==` with the off record.
#[tactic(auto, unfolding(crate::specs::Ranges::is_zero))]
pub fn is_zero(r: Record) -> bool
    ensures { result ≡ is_zero r }
{
    is_control(r.endpoint.kind)
        & is_control_type(r.endpoint.transfer)
        & (r.endpoint.number == 0)
        & (r.endpoint.maximum == 0)
        & !r.next
        & !has_event(r.events)
        & !r.toggles.out_side
        & !r.toggles.in_side
        & !is_armed(r.first)
        & !is_armed(r.second)
}

#[tactic(auto, unfolding(crate::specs::Ranges::live_fits))]
pub(crate) fn live_fits(memory: u32, speed: Speed, r: Record) -> bool
    ensures { result ≡ live_fits memory speed r }
{
    let Endpoint { kind, maximum, .. } = r.endpoint;
    endpoint_fits(speed, r.endpoint)
        & toggles_fit(kind, r.toggles)
        & descriptor_fits(memory, on_out_side(kind, false), maximum, r.first)
        & descriptor_fits(memory, on_out_side(kind, true), maximum, r.second)
}
