// The spans of armed descriptors, and whether two of them share a byte.
ghost use Rattle.std.specs.Prelude.{◌≡◌, min, max, ltb};
ghost use Rattle.std.specs.Option.{option_to_list};
ghost use Rattle.laws.specs.Lists.{all};
ghost use Rattle.state.specs.Spans.{span_from, spans_in, Within, spans_of, armed_spans, share_byte, apart};

use crate::apart::Apart;
use crate::{Descriptor, Record};

// The bytes from `base` up to, and not with, `end`. A sound span's end fits 32 bits.
#[derive(Clone, Copy)]
pub(crate) struct Span {
    pub base: u32,
    pub end: u32,
}

// Whether the bytes from `a` up to `a_end` and those from `b` up to `b_end` have one in common. By `max` and `min`, as the definition has
// it, the sound test takes 59 instructions more, of 1,441.
fn share(a: u64, a_end: u64, b: u64, b_end: u64) -> bool
    ensures { result ≡ ltb (max a b) (min a_end b_end) }
{
    a < b_end && b < a_end && (a < a_end) & (b < b_end)
}

#[tactic(auto, unfolding(crate::specs::Spans::share_byte))]
fn share_byte(a: Span, b: Span) -> bool
    ensures { result ≡ share_byte a b }
{
    share(a.base as u64, a.end as u64, b.base as u64, b.end as u64)
}

impl Apart for Span {
    ghost are_apart = { apart };

    fn is_apart(&self, other: &Span) -> bool {
        !share_byte(*self, *other)
    }
}

// The span of an armed descriptor.
pub(crate) fn span_of(d: Descriptor) -> Option<Span>
    requires { Within d }
    ensures { option_to_list result ≡ spans_in d }
{
    match d {
        Descriptor::Unallocated => None,
        Descriptor::Armed { base, length, .. } => Some(Span {
            base,
            end: base + length,
        }),
    }
}

// Whether the span of `count` bytes from `from` shares no byte with a descriptor's. The sums are taken where they cannot wrap: no `Span` here,
// whose end has 32 bits.
#[tactic(auto, unfolding(crate::specs::Spans::share_byte))]
fn is_clear_of(from: u32, count: u32, d: Descriptor) -> bool
    ensures { result ≡ all (apart (span_from from count)) (spans_in d) }
{
    match d {
        Descriptor::Unallocated => true,
        Descriptor::Armed { base, length, .. } => {
            let end = (from as u64) + (count as u64);
            let other_end = (base as u64) + (length as u64);
            !share(from as u64, end, base as u64, other_end)
        }
    }
}

fn is_clear_of_record(from: u32, count: u32, r: Record) -> bool
    ensures { result ≡ all (apart (span_from from count)) (spans_of r) }
{
    is_clear_of(from, count, r.first) & is_clear_of(from, count, r.second)
}

// Whether the span of `count` bytes from `from` shares no byte with an armed span of the records.
pub fn is_clear(from: u32, count: u32, records: [Record; 16]) -> bool
    ensures { result ≡ all (apart (span_from from count)) (armed_spans records) }
{
    records.iter().all(|r| is_clear_of_record(from, count, *r))
}
