// A list of at most `N` items, in an array of that size: the core has no heap.
ghost use Rattle.std.specs.Prelude.{◌≡◌, ◌<◌, ◌≤◌, List, [], ◌∷◌, ◌++◌, length, take};
ghost use Rattle.std.specs.Option.{option_to_list};

use std::marker::Model;

#[derive(Drop)]
pub(crate) struct FixedList<T, const N: usize> {
    items: [T; N],
    len: usize,
}

// Clauses see the items.
impl<T, const N: usize> Model for FixedList<T, N> {
    ghost Value = { List T };

    ghost view = { λ l. take l.len l.items };

    ghost invariant = { λ l. l.len ≤ N };
}

impl<T: Copy, const N: usize> FixedList<T, N> {
    // The array holds `filler` where no item stands.
    pub(crate) fn new(filler: T) -> Self
        ensures { result ≡ [] }
    {
        FixedList {
            items: [filler; N],
            len: 0,
        }
    }

    pub(crate) fn push(&mut self, item: T)
        requires { length self.old < N }
        ensures { self.new ≡ self.old ++ item ∷ [] }
    {
        self.items[self.len] = item;
        self.len += 1;
    }

    pub(crate) fn extend(&mut self, item: Option<T>)
        requires { length self.old < N }
        ensures { self.new ≡ self.old ++ option_to_list item }
    {
        if let Some(item) = item {
            self.push(item);
        }
    }

    pub(crate) fn as_slice(&self) -> &[T]
        ensures { result.now ≡ self.now }
    {
        &self.items[..self.len]
    }
}
