//! `Course`: which place of a store an iterator visits next. This module knows no pair.
ghost use Rattle.std.specs.Prelude.{◌≡◌, ◌++◌, ◌∷◌, [], List, Option, length};
ghost use Rattle.bimap_walk.specs.Courses.{IsStep};

use bimap_base::Pairs;

/// The order in which an iterator visits the places of a store.
pub trait Course: Drop {
    /// How far an iterator has come.
    type Cursor: Copy;

    /// The pairs ahead of an iterator, in order.
    ghost ahead: { (P : Type 0) → Self → Self.Cursor → List (Option P) → List P };

    /// The cursor is a state of an iterator over this store.
    ghost stands: { (P : Type 0) → Self → Self.Cursor → List (Option P) → Type 0 };

    /// Returns how many pairs are ahead, in constant time.
    fn len<L, R>(&self, pairs: &Pairs<L, R>, cursor: &Self::Cursor) -> usize
        requires stands { stands (L × R) self.now cursor.now pairs.now }
        ensures { result ≡ length (ahead (L × R) self.now cursor.now pairs.now) };

    /// Returns the place of the first pair ahead, and moves the cursor past it. Returns `None` if no pair is ahead.
    fn first<L, R>(&self, pairs: &Pairs<L, R>, cursor: &mut Self::Cursor) -> Option<usize>
        requires stands { stands (L × R) self.now cursor.old pairs.now }
        ensures { IsStep (λ p ps. p ∷ ps) (stands (L × R) self.now cursor.new)
            (ahead (L × R) self.now cursor.new) pairs.now
            (ahead (L × R) self.now cursor.old pairs.now) result };
}

/// A course that an iterator can also follow from its end.
pub trait CourseBack: Course {
    /// Returns the place of the last pair ahead, and moves the cursor before it. Returns `None` if no pair is ahead.
    fn last<L, R>(&self, pairs: &Pairs<L, R>, cursor: &mut Self::Cursor) -> Option<usize>
        requires stands { Self.stands (L × R) self.now cursor.old pairs.now }
        ensures { IsStep (λ p ps. ps ++ p ∷ []) (Self.stands (L × R) self.now cursor.new)
            (Self.ahead (L × R) self.now cursor.new) pairs.now
            (Self.ahead (L × R) self.now cursor.old pairs.now) result };
}
