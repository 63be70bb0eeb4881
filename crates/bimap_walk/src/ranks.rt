//! The course of an ordered index: by the ranks of its places, from both ends. This module does not know which side the
//! index belongs to.
ghost use Rattle.std.specs.Prelude.{◌≡◌};
ghost use Rattle.bimap_base.specs.PairsAt.{pairs_at};
ghost use Rattle.bimap_walk.specs.Windows.{IsLiveWindow, places_in};

use crate::course::{Course, CourseBack};
use crate::window::Window;
use bimap_base::Pairs;
use bimap_tree::Ordered;

impl Course for Ordered {
    type Cursor = Window;

    ghost ahead = { λ P o window slots. pairs_at slots (places_in o.places window) };

    ghost stands = { λ P o window slots. IsLiveWindow slots o.places window };

    fn len<L, R>(&self, _pairs: &Pairs<L, R>, window: &Window) -> usize {
        window.len(self)
    }

    #[inline(always)]
    fn first<L, R>(&self, _pairs: &Pairs<L, R>, window: &mut Window) -> Option<usize> {
        window.first(self)
    }
}

impl CourseBack for Ordered {
    #[inline(always)]
    fn last<L, R>(&self, _pairs: &Pairs<L, R>, window: &mut Window) -> Option<usize> {
        window.last(self)
    }
}
