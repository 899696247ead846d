//! A list of few items, which lie in the value itself.
ghost use Rattle.std.specs.Prelude.{◌≡◌, ◌≤◌, ◌<◌, ◌++◌, ◌∷◌, ◌==◌, [], length};
ghost use Rattle.std.specs.Cmp.Lexicographic.{pointwise, lists_per, lists_equiv};

use std::marker::Model;

/// At most `N` items, `N` below 256, which lie in the value itself.
///
/// The count is one byte and no word, so that an enum of which one variant holds such a list has no gaps that
/// its other variants would have to carry. A contract sees it as the list of its items.
#[derive(Debug, Drop)]
pub struct ShortList<T, const N: usize> {
    items: [T; N],
    count: u8,
}

impl<T, const N: usize> Model for ShortList<T, N> {
    ghost use Rattle.std.specs.Prelude.{◌≡◌, ◌≤◌, ◌<◌, List as Seq, length, take};

    ghost Value = { Seq T };

    ghost view = { λ l. take l.count l.items };

    ghost invariant = { λ l. (l.count ≤ N) × (length l.items ≡ N) × (N < 256) };
}

impl<T: Copy + Default, const N: usize> ShortList<T, N> {
    /// No item.
    pub fn new() -> Self
        requires { N < 256 }
        ensures { result ≡ [] }
    {
        ShortList {
            items: Default::default(),
            count: 0,
        }
    }

    /// Leaves no item in it.
    pub fn clear(&mut self)
        ensures { self.new ≡ [] }
    {
        self.count = 0;
    }

    /// Puts an item behind the others.
    pub fn push(&mut self, item: T)
        requires { length self.old < N }
        ensures { self.new ≡ self.old ++ item ∷ [] }
    {
        self.items[usize::from(self.count)] = item;
        self.count += 1;
    }
}

impl<T, const N: usize> ShortList<T, N> {
    /// The number of items.
    pub fn len(&self) -> usize
        ensures value { result ≡ length self.now }
        ensures fits { result ≤ N }
    {
        usize::from(self.count)
    }

    /// Whether it has no item.
    pub fn is_empty(&self) -> bool
        ensures { result ≡ (length self.now == 0) }
    {
        self.len() == 0
    }

    /// Whether no item more has room.
    pub fn is_full(&self) -> bool
        ensures value { result ≡ (length self.now == N) }
        ensures fits { length self.now ≤ N }
    {
        self.len() == N
    }

    /// Its items in order.
    pub fn as_slice(&self) -> &[T]
        ensures value { result.now ≡ self.now }
        ensures fits { length self.now ≤ N }
    {
        &self.items[..self.len()]
    }
}

impl<T: PartialEq, const N: usize> PartialEq for ShortList<T, N> {
    ghost eq = { pointwise T.eq };

    ghost laws = { lists_per T.laws };

    fn eq(&self, other: &Self) -> bool {
        self.as_slice() == other.as_slice()
    }
}

impl<T: Eq, const N: usize> Eq for ShortList<T, N> {
    ghost laws = { lists_equiv T.Eq.laws };
}
