// A table with room for N items, which stand in the order in which they came.
use std::marker::Model;

mod ops;

#[derive(Drop)]
pub struct Table<T, const N: usize> {
    items: [T; N],
    len: usize,
}

// Clauses see the items, oldest first; the unused room does not show.
impl<T, const N: usize> Model for Table<T, N> {
    ghost use Rattle.std.specs.Prelude.{◌≡◌, ◌≤◌, List, length, take};

    ghost Value = { List T };

    ghost view = { λ t. take t.len t.items };

    ghost invariant = { λ t. (t.len ≤ N) × (length t.items ≡ N) };
}
