//! Many pairs inserted into any map. It uses calls of `Bijection` alone.
ghost use Rattle.std.specs.Prelude.{◌≡◌, [], OnOk, IfOk, IfErr};
ghost use Rattle.std.specs.Iterator.{IsFiniteIterable};
ghost use Rattle.bimap_any.specs.Extension.{IsExtension, IsExtensionStopped, IsExtensionUnder, IsExtensionStoppedUnder};
ghost use Rattle.bimap_base.specs.Holding.{Holding};
ghost use Rattle.bimap_base.specs.Positions.{ComeInOrder, FollowInOrder};

use crate::bijection::Bijection;
use bimap_base::{ExtendStopped, ItemRefused, NotInsertedWith, OnHeld, Policy};
use std::mem;

/// Inserts each item in order, as `insert` does.
///
/// Condition: The iterator ends. If its `next` has a condition, it is true at each call of `next`.
///
/// Time: That of `insert` for each item.
///
/// Memory: It allocates as `insert` does for each item. Nothing is reserved ahead.
///
/// `Err`: Out of memory at an item. It hands that item back with the number of items before it, which stay inserted.
pub fn extend<L: Eq + Drop, R: Eq + Drop, B: Bijection<L, R>, I: IntoIterator<Item = (L, R)>>(
    bimap: &mut B,
    items: I,
) -> Result<(), ExtendStopped<L, R>>
    requires ends { IsFiniteIterable I.into_iter_gives I.IntoIter.can_next
        I.IntoIter.remaining items }
    ensures extended { OnOk result (IsExtension L.eq R.eq
        (I.into_iter_gives items) I.IntoIter.next_gives (B.holding bimap.old)
        (B.holding bimap.new)) }
    ensures stopped { IfErr result (λ e. IsExtensionStopped L.eq R.eq
        (I.into_iter_gives items) I.IntoIter.next_gives (B.holding bimap.old) e
        (B.holding bimap.new)) }
    ensures position { B.appends → OnOk result (FollowInOrder (I.into_iter_gives items)
        I.IntoIter.next_gives (B.holding bimap.old).pairs (B.holding bimap.new).pairs) }
    ensures position_stopped { B.appends → IfErr result (λ e. (stop : IsExtensionStopped L.eq R.eq
        (I.into_iter_gives items) I.IntoIter.next_gives (B.holding bimap.old) e
        (B.holding bimap.new)) × ComeInOrder (B.holding bimap.old).pairs stop.items
        (B.holding bimap.new).pairs) }
    ensures lenders { B.lenders bimap.new ≡ B.lenders bimap.old }
{
    let policy = Policy {
        left: OnHeld::Overwrite,
        right: OnHeld::Overwrite,
    };
    match extend_with(bimap, items, policy) {
        Ok(()) => Ok(()),
        Err(ItemRefused { taken, why }) => match why {
            NotInsertedWith::Memory(left, right) => Err(ExtendStopped { taken, left, right }),
            NotInsertedWith::LeftHeld(_, _) => unreachable!(),
            NotInsertedWith::RightHeld(_, _) => unreachable!(),
        },
    }
}

/// Inserts each item in order under the policy, and stops at the first that it cannot insert.
///
/// It asks the iterator for no item after that one.
///
/// Condition: The iterator ends. If its `next` has a condition, it is true at each call of `next`.
///
/// Time: That of `insert_with` for each item.
///
/// Memory: It allocates as `insert_with` does for each item. Nothing is reserved ahead.
///
/// `Err`: The first item that the policy refuses, or for which memory runs out, with the number of items before it.
/// These stay inserted.
///
///     // each left and each right once: the item 2 has the right of the item 0
///     let once = Policy { left: OnHeld::Refuse, right: OnHeld::Refuse };
///     let refused = extend_with(&mut seats, [('a', 1), ('b', 2), ('c', 1), ('d', 4)], once);
///     // Err(ItemRefused { taken: 2, why: NotInsertedWith::RightHeld('c', 1) }); ('a', 1) and ('b', 2) are in
pub fn extend_with<L: Eq + Drop, R: Eq + Drop, B: Bijection<L, R>, I: IntoIterator<Item = (L, R)>>(
    bimap: &mut B,
    items: I,
    policy: Policy,
) -> Result<(), ItemRefused<L, R>>
    requires ends { IsFiniteIterable I.into_iter_gives I.IntoIter.can_next
        I.IntoIter.remaining items }
    ensures extended { OnOk result (IsExtensionUnder L.eq R.eq
        (I.into_iter_gives items) I.IntoIter.next_gives (B.holding bimap.old) policy
        (B.holding bimap.new)) }
    ensures stopped { IfErr result (λ e. IsExtensionStoppedUnder L.eq R.eq
        (I.into_iter_gives items) I.IntoIter.next_gives (B.holding bimap.old) policy e
        (B.holding bimap.new)) }
    ensures position { B.appends → OnOk result (FollowInOrder (I.into_iter_gives items)
        I.IntoIter.next_gives (B.holding bimap.old).pairs (B.holding bimap.new).pairs) }
    ensures position_stopped { B.appends → IfErr result (λ e. (stop : IsExtensionStoppedUnder L.eq
        R.eq (I.into_iter_gives items) I.IntoIter.next_gives (B.holding bimap.old) policy e
        (B.holding bimap.new)) × ComeInOrder (B.holding bimap.old).pairs stop.items
        (B.holding bimap.new).pairs) }
    ensures lenders { B.lenders bimap.new ≡ B.lenders bimap.old }
{
    let mut taken = 0usize;
    for (left, right) in items {
        match bimap.insert_with(left, right, policy) {
            Ok(answer) => {
                mem::drop(answer);
                taken = taken.saturating_add(1);
            }
            Err(why) => {
                return Err(ItemRefused { taken, why });
            }
        }
    }
    Ok(())
}

/// Inserts each item in order into an empty map, as `insert` does, and returns the map.
///
/// Condition: `empty` contains no pair, and the iterator ends. If its `next` has a condition, it is true at each call of
/// `next`.
///
/// Time: That of `insert` for each item.
///
/// Memory: It allocates as `insert` does for each item. Nothing is reserved ahead.
///
/// `Err`: Out of memory at an item. It hands that item back with the number of items before it, and drops the map.
pub fn from_iter<
    L: Eq + Drop,
    R: Eq + Drop,
    B: Bijection<L, R> + Drop,
    I: IntoIterator<Item = (L, R)>,
>(empty: B, items: I) -> Result<B, ExtendStopped<L, R>>
    requires empty { (B.holding empty).pairs ≡ [] }
    requires ends { IsFiniteIterable I.into_iter_gives I.IntoIter.can_next
        I.IntoIter.remaining items }
    ensures extended { IfOk result (λ bimap. IsExtension L.eq R.eq
        (I.into_iter_gives items) I.IntoIter.next_gives (B.holding empty) (B.holding bimap)) }
    ensures stopped { IfErr result (λ e. (last : Holding L R) × IsExtensionStopped L.eq R.eq
        (I.into_iter_gives items) I.IntoIter.next_gives (B.holding empty) e last) }
    ensures position { B.appends → IfOk result (λ bimap. FollowInOrder (I.into_iter_gives items)
        I.IntoIter.next_gives [] (B.holding bimap).pairs) }
    ensures lenders { IfOk result (λ bimap. B.lenders bimap ≡ B.lenders empty) }
{
    let mut bimap = empty;
    match extend(&mut bimap, items) {
        Ok(()) => Ok(bimap),
        Err(stopped) => Err(stopped),
    }
}

/// Inserts each item in order under the policy into an empty map, and returns the map.
///
/// Condition: `empty` contains no pair, and the iterator ends. If its `next` has a condition, it is true at each call of
/// `next`.
///
/// Time: That of `insert_with` for each item.
///
/// Memory: It allocates as `insert_with` does for each item. Nothing is reserved ahead.
///
/// `Err`: The first item that the policy refuses, or for which memory runs out, with the number of items before it. The
/// map is dropped.
///
///     // each left and each right once
///     let once = Policy { left: OnHeld::Refuse, right: OnHeld::Refuse };
///     let seats = from_iter_with(BiBTreeMap::new(alloc), [('a', 1), ('b', 2)], once)?;
pub fn from_iter_with<
    L: Eq + Drop,
    R: Eq + Drop,
    B: Bijection<L, R> + Drop,
    I: IntoIterator<Item = (L, R)>,
>(empty: B, items: I, policy: Policy) -> Result<B, ItemRefused<L, R>>
    requires empty { (B.holding empty).pairs ≡ [] }
    requires ends { IsFiniteIterable I.into_iter_gives I.IntoIter.can_next
        I.IntoIter.remaining items }
    ensures extended { IfOk result (λ bimap. IsExtensionUnder L.eq R.eq
        (I.into_iter_gives items) I.IntoIter.next_gives (B.holding empty) policy
        (B.holding bimap)) }
    ensures stopped { IfErr result (λ e. (last : Holding L R) × IsExtensionStoppedUnder L.eq R.eq
        (I.into_iter_gives items) I.IntoIter.next_gives (B.holding empty) policy e last) }
    ensures position { B.appends → IfOk result (λ bimap. FollowInOrder (I.into_iter_gives items)
        I.IntoIter.next_gives [] (B.holding bimap).pairs) }
    ensures lenders { IfOk result (λ bimap. B.lenders bimap ≡ B.lenders empty) }
{
    let mut made = empty;
    match extend_with(&mut made, items, policy) {
        Ok(()) => Ok(made),
        Err(refused) => Err(refused),
    }
}
