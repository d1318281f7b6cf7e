// Things of which no two of a list may meet: what records serve, and armed spans.
ghost use Rattle.std.specs.Prelude.{◌≡◌, Bool};
ghost use Rattle.laws.specs.Lists.{pairs};

pub(crate) trait Apart {
    // Whether two may stand in one list.
    ghost are_apart: { Self → Self → Bool };

    fn is_apart(&self, other: &Self) -> bool
        ensures { result ≡ are_apart self.now other.now };
}

// Each is held against every later one, up to the first two that meet: no iterator hands out an item with those behind it.
pub(crate) fn all_apart<T: Apart>(items: &[T]) -> bool
    ensures { result ≡ pairs T.are_apart items.now }
{
    let mut rest = items;
    while let Some((first, later)) = rest.split_first() {
        if !later.iter().all(|other| first.is_apart(other)) {
            return false;
        }
        rest = later;
    }
    true
}
