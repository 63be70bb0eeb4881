//! One of three maps, which knows only the calls that they share.
ghost use Rattle.std.specs.Prelude.{◌≡◌, Contains};
ghost use Rattle.bimap.specs.Holding.{IsUndoing};
ghost use Rattle.bimap.specs.Undoing.{IsUndoable};
ghost use Rattle.bimap_dynamic.specs.ByKind.{by_kind, by_cases};

use bimap::{
    BiBTreeMap, BiHashMap, BiInsertionOrderMap, Bijection, NoMemory, NotInsertedWith, Overwritten,
    Policy, UndoStopped,
};
use std::hash::{BuildHasherDefault, FoldHasher};

/// A map of one of three kinds.
///
/// It has the calls of `Bijection`, and so every function over any map. Each call makes one branch, and then the call
/// of the map that is inside. It takes the time and the memory of that call. For a call that only one kind has, match
/// on the `AnyOf`.
///
/// The contracts of these calls do not say in which order the pairs are. To prove a position in insertion order, match
/// on the `AnyOf` too.
#[derive(Drop)]
pub enum AnyOf<O, H, I> {
    /// A map with two ordered sides.
    Ordered(O),
    /// A map with two hashed sides.
    Hashed(H),
    /// A map with two hashed sides that iterates in insertion order.
    InsertionOrder(I),
}

/// A map of two types, whose kind is chosen when it is made.
///
/// The hash builders are those of the two kinds with hashed sides. By default they have a fixed seed.
///
///     let mut seats: AnyMap<char, u32> = AnyOf::Hashed(BiHashMap::new(alloc));
///     seats.insert('a', 3); // Ok(Overwritten::Neither)
pub type AnyMap<L, R, LS = BuildHasherDefault<FoldHasher>, RS = BuildHasherDefault<FoldHasher>> =
    AnyOf<BiBTreeMap<L, R>, BiHashMap<L, R, LS, RS>, BiInsertionOrderMap<L, R, LS, RS>>;

impl<
    L: Eq + Drop,
    R: Eq + Drop,
    O: Bijection<L, R>,
    H: Bijection<L, R>,
    I: Bijection<L, R>,
> Bijection<L, R> for AnyOf<O, H, I> {
    ghost holding = { by_kind O.holding H.holding I.holding };

    ghost appends = { ⊥ };

    ghost lenders = { by_kind O.lenders H.lenders I.lenders };

    ghost apart = { by_cases _ O.apart H.apart I.apart };

    ghost fits = { by_cases _ O.fits H.fits I.fits };

    fn len(&self) -> usize {
        match self {
            AnyOf::Ordered(map) => map.len(),
            AnyOf::Hashed(map) => map.len(),
            AnyOf::InsertionOrder(map) => map.len(),
        }
    }

    fn capacity(&self) -> usize {
        match self {
            AnyOf::Ordered(map) => map.capacity(),
            AnyOf::Hashed(map) => map.capacity(),
            AnyOf::InsertionOrder(map) => map.capacity(),
        }
    }

    fn get_by_left(&self, left: &L) -> Option<&R> {
        match self {
            AnyOf::Ordered(map) => map.get_by_left(left),
            AnyOf::Hashed(map) => map.get_by_left(left),
            AnyOf::InsertionOrder(map) => map.get_by_left(left),
        }
    }

    fn get_by_right(&self, right: &R) -> Option<&L> {
        match self {
            AnyOf::Ordered(map) => map.get_by_right(right),
            AnyOf::Hashed(map) => map.get_by_right(right),
            AnyOf::InsertionOrder(map) => map.get_by_right(right),
        }
    }

    fn insert_with(
        &mut self,
        left: L,
        right: R,
        policy: Policy,
    ) -> Result<Overwritten<L, R>, NotInsertedWith<L, R>> {
        match self {
            AnyOf::Ordered(map) => map.insert_with(left, right, policy),
            AnyOf::Hashed(map) => map.insert_with(left, right, policy),
            AnyOf::InsertionOrder(map) => map.insert_with(left, right, policy),
        }
    }

    fn remove_by_left(&mut self, left: &L) -> Option<(L, R)> {
        match self {
            AnyOf::Ordered(map) => map.remove_by_left(left),
            AnyOf::Hashed(map) => map.remove_by_left(left),
            AnyOf::InsertionOrder(map) => map.remove_by_left(left),
        }
    }

    fn remove_by_right(&mut self, right: &R) -> Option<(L, R)> {
        match self {
            AnyOf::Ordered(map) => map.remove_by_right(right),
            AnyOf::Hashed(map) => map.remove_by_right(right),
            AnyOf::InsertionOrder(map) => map.remove_by_right(right),
        }
    }

    fn for_each<F: FnMut(&L, &R)>(&self, f: F) {
        match self {
            AnyOf::Ordered(map) => map.for_each(f),
            AnyOf::Hashed(map) => map.for_each(f),
            AnyOf::InsertionOrder(map) => map.for_each(f),
        }
    }

    fn retain<F: FnMut(&L, &R) -> bool>(&mut self, f: F) {
        match self {
            AnyOf::Ordered(map) => map.retain(f),
            AnyOf::Hashed(map) => map.retain(f),
            AnyOf::InsertionOrder(map) => map.retain(f),
        }
    }

    fn clear(&mut self) {
        match self {
            AnyOf::Ordered(map) => map.clear(),
            AnyOf::Hashed(map) => map.clear(),
            AnyOf::InsertionOrder(map) => map.clear(),
        }
    }

    fn reserve(&mut self, more: usize) -> Result<(), NoMemory> {
        match self {
            AnyOf::Ordered(map) => map.reserve(more),
            AnyOf::Hashed(map) => map.reserve(more),
            AnyOf::InsertionOrder(map) => map.reserve(more),
        }
    }

    fn undo_insert(
        &mut self,
        left: &L,
        answer: Overwritten<L, R>,
    ) -> Result<(L, R), UndoStopped<L, R>>
        requires undoable { IsUndoable L.eq R.eq
            (Contains (by_kind O.holding H.holding I.holding self.old).pairs) left.now answer }
        ensures answer { IsUndoing L.eq R.eq (by_kind O.holding H.holding I.holding self.old)
            left.now answer result (by_kind O.holding H.holding I.holding self.new) }
        ensures lenders { by_kind O.lenders H.lenders I.lenders self.new
            ≡ by_kind O.lenders H.lenders I.lenders self.old }
    {
        match self {
            AnyOf::Ordered(map) => map.undo_insert(left, answer),
            AnyOf::Hashed(map) => map.undo_insert(left, answer),
            AnyOf::InsertionOrder(map) => map.undo_insert(left, answer),
        }
    }
}
