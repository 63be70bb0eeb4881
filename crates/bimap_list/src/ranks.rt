//! The ranks of the places of a list. They are needed when the pairs of a store move to its first places.
ghost use Rattle.std.specs.Prelude.{◌≡◌, ◌≢◌, ◌≤◌, length, IfOk};
ghost use Rattle.std.specs.List.{AllPairs};
ghost use Rattle.bimap_list.specs.Ranks.{AreRanks};

use crate::linked_list::LinkedList;
use bimap_base::NoMemory;
use std::alloc::Global;

impl LinkedList {
    /// Returns a list of the ranks of the places, in the order of this list. The rank of a place is the number of listed places
    /// below it. The new list has cells for `to` places.
    ///
    /// With n places it takes O(n log n) time. It allocates the cells, and 2 n numbers that it frees before it returns. If it
    /// runs out of memory, it returns no list.
    pub fn ranks(&self, alloc: Global, to: usize) -> Result<LinkedList, NoMemory>
        requires room { length self.now.places ≤ to }
        ensures ranks { IfOk result (λ list. AreRanks self.now.places list.places) }
        ensures cells { IfOk result (λ list. list.cells ≡ to) }
        ensures distinct { IfOk result (λ list. AllPairs (λ a b. a ≢ b) list.places) }
    {
        let places = self.to_vec(alloc)?;
        let mut sorted = self.to_vec(alloc)?;
        sorted.sort_unstable();
        let mut list = LinkedList::new(alloc);
        list.grow(to)?;
        for place in &places {
            let Ok(rank) = sorted.binary_search(place) else {
                unreachable!()
            };
            list.push_back(rank);
        }
        Ok(list)
    }

    // Returns the places in the order of the list.
    fn to_vec(&self, alloc: Global) -> Result<Vec<usize>, NoMemory>
        ensures items { IfOk result (λ places. places.items ≡ self.now.places) }
        ensures distinct { AllPairs (λ a b. a ≢ b) self.now.places }
    {
        let mut places = Vec::new(alloc);
        let mut next = self.first();
        for _ in 0..self.cells() {
            let Some(place) = next else {
                break;
            };
            if places.push(place).is_err() {
                return Err(NoMemory);
            }
            next = self.after(place);
        }
        Ok(places)
    }
}
