//! What a caller of a `BiInsertionOrderMap` knows about the order of its pairs.
ghost use Rattle.std.specs.Prelude.{◌≡◌, ◌++◌, ◌∷◌, [], OnOk};
ghost use Rattle.bimap.specs.InsertionOrder.{holding};

use bimap::{BiInsertionOrderMap, NotInserted};

type Seats = BiInsertionOrderMap<char, u32>;

// A caller's contract: a pair of new values goes to the end.
fn append(seats: &mut Seats, left: char, right: u32) -> Result<(), NotInserted<char, u32>>
    ensures { OnOk result ((holding seats.new).pairs
        ≡ (holding seats.old).pairs ++ (left, right) ∷ []) }
{
    seats.insert_no_overwrite(left, right)
}
