// The search over the sixteen records.
ghost use Rattle.std.specs.Prelude.{◌≡◌};
ghost use Rattle.bus.specs.Search.{served_by, found_in};

use crate::active;
use crate::active::Direction;
use state::{Core, Record, range};

#[tactic(auto, unfolding(crate::specs::Search::served_by))]
fn is_served_by(number: u32, direction: Direction, r: Record) -> bool
    ensures { result ≡ served_by number direction r }
{
    range::is_live(r.condition)
        & (r.endpoint.number == number)
        & active::serves(direction, r.endpoint.kind)
}

// Stops at the match by break, the form that document 01 names, which `found_in` states.
#[tactic(auto, unfolding(crate::specs::Search::found_in))]
pub(crate) fn find(number: u32, direction: Direction, core: Core) -> Option<usize>
    ensures { result ≡ found_in number direction core.records }
{
    let mut found = None;
    for (i, r) in core.records.iter().enumerate() {
        if is_served_by(number, direction, *r) {
            found = Some(i);
            break;
        }
    }
    found
}
