//! Lists that stay as they are, of items or of bytes.
ghost use Rattle.std.specs.Prelude.{◌≡◌, ◌≤◌, length, List as Seq, ℕ, nat_eq};
ghost use Rattle.std.specs.Cmp.{partial_equiv_from_equiv};
ghost use Rattle.std.specs.Cmp.Lexicographic.{pointwise, lists_per, lists_equiv, nat_list_eq_equiv};
ghost use Rattle.ws_code.specs.Code.{AreBytes};

use arrayvec::ArrayVec;
use std::marker::Model;

/// A `Vec` that stays as it is. A contract sees it as its list.
#[derive(Debug, Drop)]
pub struct List<T> {
    items: Vec<T>,
}

impl<T> Model for List<T> {
    ghost Value = { Seq T };

    ghost view = { λ l. l.items.items };
}

impl<T> List<T> {
    /// The list of the items.
    pub fn of(items: Vec<T>) -> Self
        ensures { result ≡ items.items }
    {
        List { items }
    }

    /// Its items in order.
    pub fn as_slice(&self) -> &[T]
        ensures { result.now ≡ self.now }
    {
        self.items.as_slice()
    }

    /// Its items, to be changed.
    pub fn into_inner(self) -> Vec<T>
        ensures { result.items ≡ self }
    {
        self.items
    }
}

impl<T: PartialEq> PartialEq for List<T> {
    ghost eq = { pointwise T.eq };

    ghost laws = { lists_per T.laws };

    fn eq(&self, other: &Self) -> bool {
        self.as_slice() == other.as_slice()
    }
}

impl<T: Eq> Eq for List<T> {
    ghost laws = { lists_equiv T.Eq.laws };
}

// The numbers in a slice of bytes are bytes: known of a parameter, and not of a call's result.
fn in_range(bytes: &[u8])
    ensures { AreBytes bytes.now }
{
    let _kept = bytes;
}

/// At most `N` bytes that stay as they are. A contract sees it as their list.
#[derive(Debug, Drop)]
pub struct ByteList<const N: usize> {
    bytes: ArrayVec<u8, N>,
}

impl<const N: usize> Model for ByteList<N> {
    ghost Value = { Seq ℕ };

    ghost view = { λ l. l.bytes.items };
}

impl<const N: usize> ByteList<N> {
    /// The list of the bytes.
    pub fn of(bytes: ArrayVec<u8, N>) -> Self
        ensures { result ≡ bytes.entry.items }
    {
        ByteList { bytes }
    }

    /// Its bytes in order.
    pub fn as_slice(&self) -> &[u8]
        ensures value { result.now ≡ self.now }
        ensures fits { length self.now ≤ N }
        ensures bytes { AreBytes self.now }
    {
        let bytes = self.bytes.as_slice();
        in_range(bytes);
        bytes
    }

    /// Its bytes, to be changed.
    pub fn into_inner(self) -> ArrayVec<u8, N>
        ensures { result.items ≡ self.entry }
    {
        self.bytes
    }
}

impl<const N: usize> PartialEq for ByteList<N> {
    ghost eq = { pointwise nat_eq };

    ghost laws = { partial_equiv_from_equiv nat_list_eq_equiv };

    fn eq(&self, other: &Self) -> bool {
        self.as_slice() == other.as_slice()
    }
}

impl<const N: usize> Eq for ByteList<N> {
    ghost laws = { nat_list_eq_equiv };
}
