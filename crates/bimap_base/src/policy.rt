//! Which values an insertion may overwrite.
ghost use Rattle.std.specs.Prelude.{◌≡◌, ◌↔◌, IsTrue};

/// What an insertion does on one side if the map already contains the value.
#[derive(Clone, Copy, Debug, Eq, PartialEq)]
pub enum OnHeld {
    /// The insertion overwrites the pair that has the value.
    Overwrite,
    /// The insertion is refused.
    Refuse,
}

/// What an insertion does on each side if the map already contains the value of that side.
#[derive(Clone, Copy, Debug, Eq, PartialEq)]
pub struct Policy {
    pub left: OnHeld,
    pub right: OnHeld,
}

impl OnHeld {
    /// Returns whether this is `Refuse`.
    ///
    /// Time: O(1).
    pub fn refuses(self) -> bool
        ensures { IsTrue result ↔ (self ≡ OnHeld.Refuse) }
    {
        match self {
            OnHeld::Overwrite => false,
            OnHeld::Refuse => true,
        }
    }
}
