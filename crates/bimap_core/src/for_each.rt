//! `for_each`, in the order of the places.
ghost use Rattle.std.specs.Prelude.{◌≡◌, Some, IfSome, IfNone};
ghost use Rattle.bimap_base.specs.Kept.{MayTestPair, TestedAt};
ghost use Rattle.bimap_base.specs.Slots.{pair_at};
ghost use Rattle.bimap_any.specs.Visited.{MayVisit, IsVisited};

use crate::table::Table;
use bimap_index::Index;

impl<L: Eq, R: Eq, I: Index<L>, J: Index<R>> Table<L, R, I, J> {
    ghost use Rattle.bimap_core.specs.Store.{holding_of};

    // Calls the closure on the pair at this place, if there is one.
    fn visit_at<F: FnMut(&L, &R)>(&self, place: usize, f: &mut F)
        requires may { (p : _) → pair_at self.now.pairs place ≡ Some p →
            MayTestPair F.FnMut f.old p }
        ensures visited { IfSome (pair_at self.now.pairs place)
            (λ p. TestedAt F.FnMut f.old p tt f.new) }
        ensures none { IfNone (pair_at self.now.pairs place) (f.new ≡ f.old) }
    {
        match self.pairs.at(place) {
            Some((left, right)) => f(left, right),
            None => {}
        }
    }

    /// Calls the closure once on each pair, in the order of the places.
    ///
    /// Never allocates. Takes time proportional to the room.
    pub fn for_each<F: FnMut(&L, &R)>(&self, mut f: F)
        requires may { MayVisit F.FnMut f (holding_of self.now.pairs).pairs }
        ensures { IsVisited F.FnMut f (holding_of self.now.pairs).pairs }
    {
        let places = self.pairs.places();
        for place in 0..places {
            self.visit_at(place, &mut f);
        }
    }
}
