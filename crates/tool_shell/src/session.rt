//! The maps of one type, and each call on them.
use crate::kind::ShellKind;
use crate::request::{On, Request};
use crate::word::Word;
use crate::{counted, items, look, marks, put, rooms, runs};
use bimap::{Bijection, Inverse};
use bimap_undo::Undoable;
use std::alloc::{AllocError, Global};
use std::fmt::Debug;
use test_support::CopyKind;

/// A map, another one beside it, and one that records its changes.
#[derive(Drop)]
pub struct Session<B: Bijection<Word, Word> + Drop> {
    pub alloc: Global,
    pub bimap: B,
    pub other: B,
    pub record: Undoable<B, Word, Word>,
}

impl<B: CopyKind<Word, Word> + ShellKind> Session<B> {
    /// Makes a session with three empty maps.
    pub fn new(alloc: Global) -> Session<B> {
        Session {
            alloc,
            bimap: B::empty(alloc),
            other: B::empty(alloc),
            record: Undoable::new(alloc, B::empty(alloc)),
        }
    }

    /// Replaces the map by one that was made, and writes it, or why there is none.
    pub fn begin<E: Debug + Drop>(
        &mut self,
        made: Result<B, E>,
        said: &mut String,
    ) -> Result<bool, AllocError> {
        match made {
            Ok(bimap) => {
                self.bimap = bimap;
                write!(said, "Ok(")?;
                self.bimap.show(said)?;
                write!(said, ")")?;
            }
            Err(refused) => write!(said, "Err({refused:?})")?,
        }
        Ok(true)
    }

    /// Makes a call, and writes what it returned. Returns whether this type of map has the call.
    pub fn call(
        &mut self,
        request: &mut Request<'_>,
        said: &mut String,
    ) -> Result<bool, AllocError> {
        match request.on {
            On::Bimap => self.plain(request, said),
            On::Inverse => self.inverse(request, said),
            On::Record => marks::call(self, request, said),
            On::Counted | On::Bounded => counted::call(&mut self.bimap, request, said),
        }
    }

    fn plain(&mut self, request: &mut Request<'_>, said: &mut String) -> Result<bool, AllocError> {
        Ok(
            look::call(&self.bimap, request, said)?
                || put::call(&mut self.bimap, request, said)?
                || self.of_pairs(request, said)?
                || self.of_sides(request, said)?,
        )
    }

    // Makes a call on the map with its sides exchanged.
    fn inverse(
        &mut self,
        request: &mut Request<'_>,
        said: &mut String,
    ) -> Result<bool, AllocError> {
        let mut view = Inverse::new(&mut self.bimap);
        Ok(
            look::call(&view, request, said)?
                || put::call(&mut view, request, said)?
                || runs::call(self.alloc, &mut view, request, said)?,
        )
    }

    fn of_pairs(
        &mut self,
        request: &mut Request<'_>,
        said: &mut String,
    ) -> Result<bool, AllocError> {
        Ok(
            rooms::call(self, request, said)?
                || items::call(self, request, said)?
                || runs::call(self.alloc, &mut self.bimap, request, said)?,
        )
    }

    fn of_sides(&mut self, request: &Request<'_>, said: &mut String) -> Result<bool, AllocError> {
        self.bimap.call(&mut self.other, request, said)
    }

    /// Writes everything that a call must leave as it was if it runs out of memory.
    pub fn show(&self, said: &mut String) -> Result<(), AllocError> {
        self.bimap.show(said)?;
        write!(said, " {} ", self.bimap.capacity())?;
        self.record.held().show(said)?;
        write!(said, " {}", self.record.mark())
    }
}
