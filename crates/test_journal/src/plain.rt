//! A list of pairs that says what a map must contain. It does not use the library.
use crate::step::{Step, group};
use std::alloc::{AllocError, Global};

/// The pairs after some steps.
#[derive(Drop)]
pub struct Plain {
    pairs: Vec<(&'static str, u64)>,
}

impl Plain {
    /// Returns the pairs after these steps.
    pub fn after(alloc: Global, steps: &[Step]) -> Result<Plain, AllocError> {
        let mut plain = Plain {
            pairs: Vec::new(alloc),
        };
        for step in steps {
            plain.make(step)?;
        }
        Ok(plain)
    }

    // Makes one step.
    fn make(&mut self, step: &Step) -> Result<(), AllocError> {
        let Step::Group(drawn) = *step else {
            return self.change(step);
        };
        for step in group(drawn).iter() {
            self.change(step)?;
        }
        Ok(())
    }

    /// Returns the pairs.
    pub fn pairs(&self) -> &[(&'static str, u64)] {
        &self.pairs
    }

    fn has_left(&self, left: &'static str) -> bool {
        self.pairs.iter().any(|pair| pair.0 == left)
    }

    fn has_right(&self, right: u64) -> bool {
        self.pairs.iter().any(|pair| pair.1 == right)
    }

    // Makes a step that is no group.
    fn change(&mut self, step: &Step) -> Result<(), AllocError> {
        match *step {
            Step::Insert(left, right) => self.insert(left, right)?,
            Step::InsertNew(left, right) => {
                if !self.has_left(left) && !self.has_right(right) {
                    self.insert(left, right)?;
                }
            }
            Step::Move(left, right) => {
                if !self.has_right(right) {
                    self.insert(left, right)?;
                }
            }
            Step::RemoveByLeft(left) => self.pairs.retain(|pair| pair.0 != left),
            Step::RemoveByRight(right) => self.pairs.retain(|pair| pair.1 != right),
            Step::Clear => self.pairs.clear(),
            Step::Compact => {}
            Step::ReplaceLeft(from, to) => {
                if from == to || !self.has_left(to) {
                    self.replace_left(from, to);
                }
            }
            Step::ReplaceRight(from, to) => {
                if from == to || !self.has_right(to) {
                    self.replace_right(from, to);
                }
            }
            Step::Group(_) => {}
        }
        Ok(())
    }

    fn replace_left(&mut self, from: &'static str, to: &'static str) {
        for pair in self.pairs.iter_mut() {
            if pair.0 == from {
                pair.0 = to;
            }
        }
    }

    fn replace_right(&mut self, from: u64, to: u64) {
        for pair in self.pairs.iter_mut() {
            if pair.1 == from {
                pair.1 = to;
            }
        }
    }

    // A forced insertion: no pair that shares a value with the new one stays.
    fn insert(&mut self, left: &'static str, right: u64) -> Result<(), AllocError> {
        self.pairs.retain(|pair| pair.0 != left && pair.1 != right);
        self.pairs.push((left, right))?;
        Ok(())
    }
}
