// What a table does.
ghost use Rattle.std.specs.Prelude.{◌≡◌, ◌<◌, ◌≤◌, [], ◌∷◌, ◌++◌, length, MatchOption, MatchResult};

use super::Table;
use crate::full::Full;

impl<T: Copy, const N: usize> Table<T, N> {
    // An empty table; `blank` fills the room that is not used yet.
    pub fn new(blank: T) -> Table<T, N>
        ensures { result ≡ [] }
    {
        Table {
            items: [blank; N],
            len: 0,
        }
    }

    // The items, oldest first.
    pub fn as_slice(&self) -> &[T]
        ensures items { result.now ≡ self.now }
        ensures room { length self.now ≤ N }
    {
        let room = &self.items[..];
        &room[0..self.len]
    }

    pub fn len(&self) -> usize
        ensures items { result ≡ length self.now }
        ensures room { length self.now ≤ N }
    {
        self.as_slice().len()
    }

    // Adds an item at the end; where there is no room, nothing changes.
    pub fn push(&mut self, item: T) -> Result<(), Full>
        ensures { MatchResult result (λ _. (length self.old < N) × (self.new ≡ self.old ++ item ∷ [])) (λ _. (N ≤ length self.old) × (self.new ≡ self.old)) }
    {
        if self.len >= N {
            return Err(Full);
        }
        self.items[self.len] = item;
        self.len += 1;
        Ok(())
    }

    // The oldest item leaves.
    pub fn take_first(&mut self) -> Option<T>
        ensures { MatchOption result ((self.old ≡ []) × (self.new ≡ [])) (λ x. self.old ≡ x ∷ self.new) }
    {
        if self.len == 0 {
            return None;
        }
        let oldest = self.items[0];
        self.items.rotate_left(1);
        self.len -= 1;
        Some(oldest)
    }

    // Every item is lost.
    pub fn clear(&mut self)
        ensures { self.new ≡ [] }
    {
        self.len = 0;
    }
}
