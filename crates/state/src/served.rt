// What a record serves: its number, in one direction or both.
ghost use Rattle.std.specs.Prelude.{◌≡◌};
ghost use Rattle.state.specs.Served.{serves_out, serves_in, end_of, same_end, beside, elsewhere};

use crate::apart::Apart;
use crate::{Endpoint, Kind, Record, range};

// A number, and the kind that has the directions in which it is served.
#[derive(Clone, Copy)]
pub struct End {
    pub number: u32,
    pub kind: Kind,
}

pub fn serves_out(kind: Kind) -> bool
    ensures { result ≡ serves_out kind }
{
    kind != Kind::In
}

pub fn serves_in(kind: Kind) -> bool
    ensures { result ≡ serves_in kind }
{
    kind != Kind::Out
}

pub(crate) fn end_of(e: Endpoint) -> End
    ensures { result ≡ end_of e }
{
    End {
        number: e.number,
        kind: e.kind,
    }
}

fn is_same_end(a: End, b: End) -> bool
    ensures { result ≡ same_end a b }
{
    a.number == b.number
        && (serves_out(a.kind) & serves_out(b.kind) | serves_in(a.kind) & serves_in(b.kind))
}

impl Apart for End {
    ghost are_apart = { elsewhere };

    fn is_apart(&self, other: &End) -> bool {
        !is_same_end(*self, *other)
    }
}

// Whether two records can stand beside each other.
#[tactic(auto, unfolding(crate::specs::Served::beside))]
pub fn are_beside(r: Record, s: Record) -> bool
    ensures { result ≡ beside r s }
{
    let same = is_same_end(end_of(r.endpoint), end_of(s.endpoint));
    !(range::is_live(r.condition) & range::is_live(s.condition) & same)
}
