//! The calls that the shell makes on a map of any two indexes. Each index brings the calls of its side.
use crate::kind::{LeftIndex, RightIndex, ShellKind, Words, counted};
use crate::request::Request;
use bimap::btree::Count;
use std::alloc::AllocError;
use test_support::Counter;

impl<I: LeftIndex, J: RightIndex<I>> ShellKind for Words<I, J> {
    fn call(
        &mut self,
        other: &mut Self,
        request: &Request<'_>,
        said: &mut String,
    ) -> Result<bool, AllocError> {
        Ok(I::call_left(self, other, request, said)? || J::call_right(self, request, said)?)
    }

    fn count(
        &mut self,
        request: &Request<'_>,
        meter: &mut Counter<Count>,
        said: &mut String,
    ) -> Result<bool, AllocError> {
        Ok(
            counted(self, request, meter, said)?
                || I::count_left(self, request, meter, said)?
                || J::count_right(self, request, meter, said)?,
        )
    }
}
