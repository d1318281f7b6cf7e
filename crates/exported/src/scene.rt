// The set-up that the packets are played on: four live records and six armed spans.
ghost use Rattle.std.specs.Prelude.{◌≡◌};
ghost use Rattle.exported.specs.Scene.{speed_of, room_of, live_of, armed_of, records_of, spans_of, bulk_of, set_up};

use state::{Condition, Core, Endpoint, Kind, Speed, Transfer};

// The records of the set-up, by index.
const CONTROL: usize = 0;

const OUT: usize = 1;

const IN: usize = 2;

const INTERRUPT: usize = 3;

const MEMORY_SIZE: u32 = 65536;

// Where the spans begin: a bulk buffer has at most 16,384 bytes.
const OUT_BASE: u32 = 0;

const IN_BASE: u32 = 16384;

const CONTROL_BASE: u32 = 32768;

const INTERRUPT_BASE: u32 = 40960;

// At high speed a bulk maximum is 512, and at full speed it never is.
#[tactic(auto, unfolding(crate::specs::Scene::speed_of))]
fn speed_of(maximum: u32) -> Speed
    ensures { result ≡ speed_of maximum }
{
    if maximum == 512 {
        Speed::High
    } else {
        Speed::Full
    }
}

// Thirty packets fill a bulk buffer: their number is even, so that each pass begins with DATA0. Configure refuses a wild maximum.
fn room(maximum: u32) -> u32
    ensures { result ≡ room_of maximum }
{
    maximum % 1024 * 30
}

// The values of a record stand one by one: each is a row of the set-up, where a struct would take six lines.
fn live(core: Core, index: usize, kind: Kind, transfer: Transfer, number: u32, maximum: u32) -> Core
    ensures { result ≡ live_of core index kind transfer number maximum }
{
    let endpoint = Endpoint {
        kind,
        transfer,
        number,
        maximum,
    };
    firmware::configure(core, index, Condition::Normal, endpoint).core
}

fn armed(core: Core, index: usize, buffer: u32, base: u32, length: u32) -> Core
    ensures { result ≡ armed_of core index buffer base length }
{
    firmware::arm(core, index, buffer, base, length).core
}

#[tactic(auto, unfolding(crate::specs::Scene::records_of))]
fn with_records(core: Core, maximum: u32) -> Core
    ensures { result ≡ records_of core maximum }
{
    let control = live(core, CONTROL, Kind::Control, Transfer::Control, 0, 64);
    let out = live(control, OUT, Kind::Out, Transfer::Bulk, 1, maximum);
    let both = live(out, IN, Kind::In, Transfer::Bulk, 1, maximum);
    live(both, INTERRUPT, Kind::In, Transfer::Interrupt, 2, 64)
}

#[tactic(auto, unfolding(crate::specs::Scene::spans_of))]
fn with_spans(core: Core, maximum: u32) -> Core
    ensures { result ≡ spans_of core maximum }
{
    let half = armed(core, CONTROL, 0, CONTROL_BASE, 64);
    let control = armed(half, CONTROL, 1, CONTROL_BASE + 64, 64);
    let first = armed(control, INTERRUPT, 0, INTERRUPT_BASE, 64);
    let second = armed(first, INTERRUPT, 1, INTERRUPT_BASE + 64, 64);
    with_bulk(second, maximum)
}

// A call that is refused, since the buffer is not used yet, leaves the state as it was.
#[tactic(auto, unfolding(crate::specs::Scene::bulk_of))]
pub fn with_bulk(core: Core, maximum: u32) -> Core
    ensures { result ≡ bulk_of core maximum }
{
    let out = armed(core, OUT, 0, OUT_BASE, room(maximum));
    armed(out, IN, 0, IN_BASE, room(maximum))
}

#[tactic(auto, unfolding(crate::specs::Scene::set_up))]
pub fn set_up(maximum: u32) -> Core
    ensures { result ≡ set_up maximum }
{
    let started = firmware::start(MEMORY_SIZE, speed_of(maximum)).core;
    let addressed = firmware::set_address(started, 1).core;
    with_spans(with_records(addressed, maximum), maximum)
}
