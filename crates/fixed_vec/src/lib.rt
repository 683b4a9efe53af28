// A vector of fixed room, whose elements lie in the value itself and are copied with it. The library's `ArrayVec` is no `Copy`, and what holds one is
// none.
#![tactic(auto)]

ghost use Rattle.std.specs.Prelude.{◌≡◌, ◌+◌, ◌<◌, ◌≤◌, ◌==◌, [], ◌∷◌, ◌++◌, ◌-◌, length, take, drop, insert, remove, slice_set, slice_index_or};
ghost use Rattle.std.proofs.Math.Seq.{paste};
ghost use Rattle.fixed_vec.specs.FixedVec.{fixed_vec_len};

use std::marker::Model;
use std::ops::DerefSlice;

// At most `N` elements: those of `cells` before `len`.
#[derive(Clone, Copy)]
pub struct FixedVec<T, const N: usize> {
    cells: [T; N],
    len: usize,
}

impl<T, const N: usize> Model for FixedVec<T, N> {
    ghost use Rattle.std.specs.Prelude.{◌≡◌, ◌≤◌, ◌++◌, length, take, drop};
    ghost use Rattle.std.proofs.Common.{arith, take-append-drop, length-take-le};
    ghost use Rattle.fixed_vec.specs.FixedVec.{FixedVec as Kept};

    ghost Value = { Kept T };

    ghost view = { λ v. record { items = take v.len v.cells; spare = drop v.len v.cells } };

    ghost invariant = { λ v. (v.len ≤ N) × (length v.cells ≡ N) };

    ghost inverse = { λ v. record { cells = v.items ++ v.spare; len = length v.items } };

    ghost inverse_ok = { λ v h i. record {
      cells = take-append-drop v.len v.cells i;
      len = length-take-le v.len v.cells (omega (arith, h.0, h.1)) i;
    } };
}

impl<T: Copy + Default, const N: usize> FixedVec<T, N> {
    // No elements.
    pub fn new() -> Self
        ensures { result.items ≡ [] }
    {
        FixedVec {
            cells: [T::default(); N],
            len: 0,
        }
    }
}

impl<T, const N: usize> FixedVec<T, N> {
    // How many elements there are.
    #[inline]
    pub fn len(&self) -> usize
        ensures value { result ≡ fixed_vec_len self.now }
        ensures fits { result ≤ N }
    {
        self.len
    }

    // Whether there is no element.
    #[inline]
    pub fn is_empty(&self) -> bool
        ensures { result ≡ (fixed_vec_len self.now == 0) }
    {
        self.len == 0
    }

    // Whether there is no room left.
    #[inline]
    pub fn is_full(&self) -> bool
        ensures value { result ≡ (fixed_vec_len self.now == N) }
        ensures fits { fixed_vec_len self.now ≤ N }
    {
        self.len == N
    }

    // The elements.
    #[inline]
    pub fn as_slice(&self) -> &[T]
        ensures value { result.now ≡ self.now.items }
        ensures fits { length result.now ≤ N }
    {
        &self.cells[..self.len]
    }
}

// Elements written over those from a place on. One by one, here and below: a library for C is to need nothing that moves memory.
fn write_at<T: Copy>(cells: &mut [T], at: usize, xs: &[T])
    requires { at + length xs.now ≤ length cells.old }
    ensures { cells.new ≡ paste cells.old at xs.now (length xs.now) }
{
    for (i, x) in xs.iter().enumerate() {
        cells[at + i] = *x;
    }
}

// An element put in at a place, and those from there up to `len` moved up.
fn move_up<T: Copy>(cells: &mut [T], index: usize, len: usize, x: T)
    requires { (index ≤ len) × (len < length cells.old) }
    ensures { cells.new ≡ take (len + 1) (insert cells.old index x) ++ drop (len + 1) cells.old }
{
    for i in (index..len).rev() {
        cells[i + 1] = cells[i];
    }
    cells[index] = x;
}

// Those behind a place, up to `len`, moved down.
fn move_down<T: Copy>(cells: &mut [T], index: usize, len: usize)
    requires { (index < len) × (len ≤ length cells.old) }
    ensures { cells.new ≡ take (len - 1) (remove cells.old index) ++ drop (len - 1) cells.old }
{
    for i in index..len - 1 {
        cells[i] = cells[i + 1];
    }
}

impl<T: Copy, const N: usize> FixedVec<T, N> {
    // An element behind the others. There must be room.
    #[inline]
    pub fn push(&mut self, x: T)
        requires { fixed_vec_len self.old < N }
        ensures items { self.new.items ≡ self.old.items ++ x ∷ [] }
        ensures len { fixed_vec_len self.new ≡ fixed_vec_len self.old + 1 }
    {
        let len = self.len;
        self.cells[len] = x;
        self.len = len + 1;
    }

    // All of some elements behind the others. There must be room.
    pub fn extend_from_slice(&mut self, xs: &[T])
        requires { fixed_vec_len self.old + length xs.now ≤ N }
        ensures items { self.new.items ≡ self.old.items ++ xs.now }
        ensures len { fixed_vec_len self.new ≡ fixed_vec_len self.old + length xs.now }
    {
        let len = self.len;
        write_at(&mut self.cells, len, xs);
        self.len = len + xs.len();
    }

    // An element in place of the one that stands at `index`.
    #[inline]
    pub fn set(&mut self, index: usize, x: T)
        requires { index < fixed_vec_len self.old }
        ensures items { self.new.items ≡ slice_set self.old.items index x }
        ensures len { fixed_vec_len self.new ≡ fixed_vec_len self.old }
    {
        let _len = self.len;
        self.cells[index] = x;
    }

    // An element put in at `index`, and the later ones moved up. There must be room.
    pub fn insert(&mut self, index: usize, x: T)
        requires in_bounds { index ≤ fixed_vec_len self.old }
        requires room { fixed_vec_len self.old < N }
        ensures items { self.new.items ≡ insert self.old.items index x }
        ensures len { fixed_vec_len self.new ≡ fixed_vec_len self.old + 1 }
    {
        let len = self.len;
        move_up(&mut self.cells, index, len, x);
        self.len = len + 1;
    }

    // The element at `index` taken out, and the later ones moved down.
    pub fn remove(&mut self, index: usize) -> T
        requires { index < fixed_vec_len self.old }
        ensures value { result ≡ slice_index_or self.old.items index result }
        ensures items { self.new.items ≡ remove self.old.items index }
        ensures len { fixed_vec_len self.new + 1 ≡ fixed_vec_len self.old }
    {
        let len = self.len;
        let x = self.cells[index];
        move_down(&mut self.cells, index, len);
        self.len = len - 1;
        x
    }

    // The first `len` elements alone.
    pub fn truncate(&mut self, len: usize)
        ensures { self.new.items ≡ take len self.old.items }
    {
        if len < self.len {
            self.len = len;
        }
    }
}

impl<T, const N: usize> DerefSlice for FixedVec<T, N> {
    type Elem = T;

    ghost deref_gives = { λ v xs. (xs ≡ v.items) × (length xs ≤ N) };

    #[inline]
    fn deref(&self) -> &[T] {
        self.as_slice()
    }
}

impl<T, const N: usize> From<[T; N]> for FixedVec<T, N> {
    ghost from_gives = { λ array v. (v.items ≡ array) × (fixed_vec_len v ≡ N) };

    fn from(array: [T; N]) -> Self {
        FixedVec {
            cells: array,
            len: N,
        }
    }
}
