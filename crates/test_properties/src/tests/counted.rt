//! Values that count how often they were dropped.
use std::alloc::{AllocError, Global};
use std::cell::Cell;
use std::rc::Rc;

/// A value that is compared and hashed by its name, and counts its drops.
#[derive_where(Eq, Hash, Ord, PartialEq, PartialOrd)]
pub struct Counted {
    name: u32,
    #[derive_where(skip(EqHashOrd))]
    drops: Rc<Cell<u32>>,
}

impl Drop for Counted {
    fn drop(self) {
        let Counted { name: _, drops } = self;
        drops.set(drops.get().wrapping_add(1));
    }
}

/// A ledger makes values and knows how often each of them was dropped.
#[derive(Drop)]
pub struct Ledger {
    alloc: Global,
    drops: Vec<Rc<Cell<u32>>>,
}

impl Ledger {
    /// Returns a ledger that has made no value.
    pub fn new(alloc: Global) -> Ledger {
        Ledger {
            alloc,
            drops: Vec::new(alloc),
        }
    }

    /// Returns the allocator of the values.
    pub fn alloc(&self) -> Global {
        self.alloc
    }

    /// Makes a value.
    pub fn value(&mut self, name: u32) -> Result<Counted, AllocError> {
        let drops = Rc::new(self.alloc, Cell::new(0u32))?;
        self.drops.push(drops.clone()?)?;
        Ok(Counted { name, drops })
    }

    /// Makes the two values of a pair.
    pub fn pair(&mut self, left: u32, right: u32) -> Result<(Counted, Counted), AllocError> {
        let left = self.value(left)?;
        Ok((left, self.value(right)?))
    }

    /// Returns how many values were dropped. Returns `None` if a value was dropped twice, or if a value that was not
    /// dropped is lost.
    pub fn dropped(&self) -> Option<usize> {
        let mut dropped = 0usize;
        for drops in self.drops.iter() {
            match (drops.get(), Rc::strong_count(drops)) {
                (0, 2) => {}
                (1, 1) => dropped = dropped.saturating_add(1),
                _ => return None,
            }
        }
        Some(dropped)
    }

    /// Returns whether each value was dropped once.
    pub fn is_balanced(&self) -> bool {
        self.dropped() == Some(self.drops.len())
    }
}
