//! Insertions. `insert_with` inserts under a policy, and each other insertion is one under a policy of its own.
ghost use Rattle.std.specs.Prelude.{◌≡◌, ◌+◌, ◌*◌, ◌≤◌, ◌++◌, ◌∷◌, [], Contains, length, IfOk, OnOk};
ghost use Rattle.bimap_base.specs.Holding.{IsInsertion, IsInsertionWithoutOverwriting, IsInsertionUnder, IsInterning};
ghost use Rattle.bimap_base.specs.Sets.{LacksLeft};
ghost use Rattle.bimap_base.specs.Positions.{StandsInOrder};

use crate::map::BijectiveMap;
use bimap_base::{Count, Meter, NoRoom, NotInserted, NotInsertedWith, OnHeld, Overwritten, Policy};
use bimap_index::Index;

impl<L: Eq + Drop, R: Eq + Drop, I: Index<L>, J: Index<R>> BijectiveMap<L, R, I, J> {
    ghost use Rattle.bimap_kinds.specs.Held.{holding};

    /// Inserts a pair and returns the pairs that it overwrote.
    ///
    /// It overwrites each pair that shares a value with the new pair. In insertion order, a new pair that overwrites
    /// the pair of the same left keeps that pair's position. Any other new pair goes to the end.
    ///
    /// Time: O(log n) with an ordered side, expected O(1) with two hashed sides. O(capacity) when the capacity grows.
    ///
    /// Memory: It allocates only if it overwrites nothing and the capacity is used up. The capacity then doubles, to at
    /// least 4.
    ///
    /// `Err`: Out of memory. It hands the pair back, and the map is as before.
    ///
    ///     seats.insert('a', 1); // Ok(Overwritten::Both(('a', 3), ('b', 1)))
    pub fn insert(&mut self, left: L, right: R) -> Result<Overwritten<L, R>, NoRoom<L, R>>
        ensures answer { IsInsertion L.eq R.eq (holding self.old) (left, right) result
            (holding self.new) }
        ensures position { I.appends → IfOk result (λ answer. StandsInOrder (holding self.old).pairs
            (left, right) answer (holding self.new).pairs) }
    {
        self.insert_metered(left, right, &mut Count::new())
    }

    /// Inserts a pair if the map contains neither of its values.
    ///
    /// In insertion order the pair goes to the end.
    ///
    /// Time: O(log n) with an ordered side, expected O(1) with two hashed sides. O(capacity) when the capacity grows.
    ///
    /// Memory: It allocates only if it inserts and the capacity is used up. The capacity then doubles, to at least 4.
    ///
    /// `Err`: The map contains one of the values (`Occupied`), or out of memory (`Memory`). It hands the pair back, and
    /// the map is as before.
    ///
    ///     seats.insert_no_overwrite('d', 3); // Err(NotInserted::Occupied('d', 3))
    pub fn insert_no_overwrite(&mut self, left: L, right: R) -> Result<(), NotInserted<L, R>>
        ensures answer { IsInsertionWithoutOverwriting L.eq R.eq (holding self.old) (left, right)
            result (holding self.new) }
        ensures position { I.appends → OnOk result ((holding self.new).pairs
            ≡ (holding self.old).pairs ++ (left, right) ∷ []) }
    {
        let policy = Policy {
            left: OnHeld::Refuse,
            right: OnHeld::Refuse,
        };
        match self.insert_with(left, right, policy) {
            Ok(_) => Ok(()),
            Err(NotInsertedWith::LeftHeld(left, right)) => Err(NotInserted::Occupied(left, right)),
            Err(NotInsertedWith::RightHeld(left, right)) => Err(NotInserted::Occupied(left, right)),
            Err(NotInsertedWith::Memory(left, right)) => Err(NotInserted::Memory(left, right)),
        }
    }

    /// Inserts a pair if the policy allows it, and returns the pairs that it overwrote.
    ///
    /// For each side, the policy says what happens if the map already contains the value: its pair is overwritten, or
    /// the new pair is refused. The left is checked first. Positions in insertion order are those of
    /// [`insert`](Self::insert).
    ///
    /// Time: O(log n) with an ordered side, expected O(1) with two hashed sides. O(capacity) when the capacity grows.
    ///
    /// Memory: It allocates only if it overwrites nothing and the capacity is used up. The capacity then doubles, to at
    /// least 4.
    ///
    /// `Err`: The policy refuses to overwrite a contained value (`LeftHeld`, `RightHeld`), or out of memory (`Memory`).
    /// It hands the pair back, and the map is as before.
    ///
    ///     let keep_right = Policy { left: OnHeld::Overwrite, right: OnHeld::Refuse };
    ///     seats.insert_with('d', 3, keep_right); // Err(NotInsertedWith::RightHeld('d', 3))
    pub fn insert_with(
        &mut self,
        left: L,
        right: R,
        policy: Policy,
    ) -> Result<Overwritten<L, R>, NotInsertedWith<L, R>>
        ensures answer { IsInsertionUnder L.eq R.eq (holding self.old) (left, right) policy result
            (holding self.new) }
        ensures position { I.appends → IfOk result (λ answer. StandsInOrder (holding self.old).pairs
            (left, right) answer (holding self.new).pairs) }
    {
        self.table
            .insert_with(left, right, policy, &mut Count::new())
    }

    /// Is [`insert`](Self::insert) with a meter.
    pub fn insert_metered<M: Meter>(
        &mut self,
        left: L,
        right: R,
        meter: &mut M,
    ) -> Result<Overwritten<L, R>, NoRoom<L, R>>
        ensures answer { IsInsertion L.eq R.eq (holding self.old) (left, right) result
            (holding self.new) }
        ensures position { I.appends → IfOk result (λ answer. StandsInOrder (holding self.old).pairs
            (left, right) answer (holding self.new).pairs) }
        ensures comparisons { let n = length (holding self.old).pairs in
            M.comparisons meter.new ≤ M.comparisons meter.old + 3 * I.effort n + 5 * J.effort n }
        ensures touches { let n = length (holding self.old).pairs in
            M.touches meter.new ≤ M.touches meter.old + 200 * (I.effort n + 1)
            + 200 * (J.effort n + 1) }
    {
        let policy = Policy {
            left: OnHeld::Overwrite,
            right: OnHeld::Overwrite,
        };
        match self.table.insert_with(left, right, policy, meter) {
            Ok(answer) => Ok(answer),
            Err(NotInsertedWith::Memory(left, right)) => Err(NoRoom { left, right }),
            Err(_) => unreachable!(),
        }
    }
}

impl<L: Eq + Drop, R: Copy + Eq + Drop, I: Index<L>, J: Index<R>> BijectiveMap<L, R, I, J> {
    ghost use Rattle.bimap_kinds.specs.Held.{holding};

    /// Returns the right of the left, and first inserts the pair if the map does not contain the left.
    ///
    /// It searches the right only if the map does not contain the left. In insertion order an inserted pair goes to the
    /// end.
    ///
    /// Time: O(log n) with an ordered side, expected O(1) with two hashed sides. O(capacity) when the capacity grows.
    ///
    /// Memory: It allocates only if it inserts and the capacity is used up. The capacity then doubles, to at least 4.
    ///
    /// `Err`: Another pair has the right (`Occupied`), or out of memory (`Memory`). It hands the pair back, and the map
    /// is as before.
    ///
    ///     seats.get_by_left_or_insert('a', 4); // Ok(3)
    ///     seats.get_by_left_or_insert('d', 4); // Ok(4)
    ///     seats.get_by_left_or_insert('e', 1); // Err(NotInserted::Occupied('e', 1))
    pub fn get_by_left_or_insert(&mut self, left: L, right: R) -> Result<R, NotInserted<L, R>>
        ensures answer { IsInterning L.eq R.eq (holding self.old) (left, right) result
            (holding self.new) }
        ensures position { I.appends → LacksLeft L.eq (Contains (holding self.old).pairs) left →
            OnOk result ((holding self.new).pairs
            ≡ (holding self.old).pairs ++ (left, right) ∷ []) }
    {
        self.get_by_left_or_insert_metered(left, right, &mut Count::new())
    }

    /// Is [`get_by_left_or_insert`](Self::get_by_left_or_insert) with a meter.
    pub fn get_by_left_or_insert_metered<M: Meter>(
        &mut self,
        left: L,
        right: R,
        meter: &mut M,
    ) -> Result<R, NotInserted<L, R>>
        ensures answer { IsInterning L.eq R.eq (holding self.old) (left, right) result
            (holding self.new) }
        ensures position { I.appends → LacksLeft L.eq (Contains (holding self.old).pairs) left →
            OnOk result ((holding self.new).pairs
            ≡ (holding self.old).pairs ++ (left, right) ∷ []) }
        ensures comparisons { let n = length (holding self.old).pairs in
            M.comparisons meter.new ≤ M.comparisons meter.old + I.effort n + J.effort n }
        ensures touches { let n = length (holding self.old).pairs in
            M.touches meter.new ≤ M.touches meter.old + 65 * (I.effort n + 1)
            + 65 * (J.effort n + 1) }
    {
        self.table.get_by_left_or_insert(left, right, meter)
    }
}
