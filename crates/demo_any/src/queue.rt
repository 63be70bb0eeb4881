//! Who stands in front of a queue.
ghost use Rattle.std.specs.Prelude.{◌≡◌, ◌≤◌, [], Contains, IfSome, IfNone};
ghost use Rattle.bimap.specs.BTree.{holding};

use bimap::BiHashBTreeMap;
use std::hash::Hash;

/// The guest with the least number, who is next, and that number. Costs logarithmic time, and no memory.
pub fn in_front<G: Eq + Hash>(queue: &BiHashBTreeMap<G, u32>) -> Option<(&G, &u32)>
    ensures waits { IfSome result (λ p. Contains (holding queue.now).pairs (p.0.now, p.1.now)) }
    ensures least { IfSome result (λ p. (q : _) → Contains (holding queue.now).pairs q →
        p.1.now ≤ q.1) }
    ensures nobody { IfNone result ((holding queue.now).pairs ≡ []) }
{
    queue.first_by_right()
}
