// Items one after another, in a room of fixed size: for programs that have no heap.
// As the kit's `arrayvec`; the port stands on std alone (README.md).
#![tactic(auto)]

ghost use Rattle.std.specs.Prelude.{◌≡◌, ◌∷◌, [], ◌++◌, ◌+◌, ◌≤◌, ◌<◌, length, take};

use std::marker::Model;

// At most N items. Contracts speak of them as a list, `items`.
#[derive(Clone, Copy)]
pub struct Buffer<T, const N: usize> {
    room: [T; N],
    count: usize,
}

impl<T, const N: usize> Model for Buffer<T, N> {
    ghost use Rattle.std.specs.Prelude.{ℕ, List, ◌≤◌, take};
    ghost use Rattle.buffer.specs.Held.{Held};

    ghost Value = { Held T };

    ghost view = { λ b. record { items = take b.count b.room; room = b.room; count = b.count } };

    ghost invariant = { λ b. b.count ≤ N };

    ghost inverse = { λ v. record { room = v.room; count = v.count } };
}

impl<T: Copy + Default, const N: usize> Buffer<T, N> {
    // Nothing yet.
    pub fn new() -> Self
        ensures { result.items ≡ [] }
    {
        Buffer {
            room: [T::default(); N],
            count: 0,
        }
    }

    pub fn as_slice(&self) -> &[T]
        ensures items { result.now ≡ self.now.items }
        ensures few { length self.now.items ≤ N }
    {
        &self.room[..self.count]
    }

    pub fn clear(&mut self)
        ensures { self.new.items ≡ [] }
    {
        self.count = 0;
    }

    // One more.
    pub fn push(&mut self, item: T)
        requires { length self.old.items < N }
        ensures { self.new.items ≡ self.old.items ++ item ∷ [] }
    {
        self.room[self.count] = item;
        self.count += 1;
    }

    // More of them.
    pub fn extend(&mut self, items: &[T])
        requires { length self.old.items + length items.now ≤ N }
        ensures { self.new.items ≡ self.old.items ++ items.now }
    {
        let end = self.count + items.len();
        let room = &mut self.room[..];
        room[self.count..end].copy_from_slice(items);
        self.count = end;
    }

    // As many of the items as there is room for.
    pub fn hold(&mut self, items: &[T])
        ensures { self.new.items ≡ take N (self.old.items ++ items.now) }
    {
        let count = items.len().min(N - self.count);
        self.extend(&items[..count]);
    }
}
