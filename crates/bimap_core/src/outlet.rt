//! What receives the pairs that a call removes.
ghost use Rattle.std.specs.Prelude.{◌≡◌, ◌+◌, ◌≤◌, ◌++◌, ◌∷◌, [], ℕ, ⊤, vec_len, vec_capacity};

/// A receiver of the pairs that a call removes. Receiving never allocates.
pub trait Outlet<T> {
    /// The outlet can receive this many more values.
    ghost has_room: { Self → ℕ → Type 0 };

    /// The first outlet received the value, and became the second.
    ghost receives: { Self → T → Self → Type 0 };

    /// Takes over a value.
    fn receive(&mut self, value: T)
        requires room { has_room self.old 1 }
        ensures received { receives self.old value self.new }
        ensures rest { (more : ℕ) → has_room self.old (1 + more) → has_room self.new more };
}

/// An outlet that drops every value.
#[derive(Drop)]
pub struct Dropped;

impl<T: Drop> Outlet<T> for Dropped {
    ghost has_room = { λ _ _. ⊤ };

    ghost receives = { λ _ _ _. ⊤ };

    fn receive(&mut self, _value: T) {}
}

impl<T> Outlet<T> for Vec<T> {
    ghost has_room = { λ v n. vec_len v + n ≤ vec_capacity v };

    ghost receives = { λ v x w. w.items ≡ v.items ++ x ∷ [] };

    fn receive(&mut self, value: T) {
        self.push_reserved(value);
    }
}
