//! The four policies.
use bimap::{OnHeld, Policy};

pub const ONCE: Policy = Policy {
    left: OnHeld::Refuse,
    right: OnHeld::Refuse,
};

pub const KEEP_LEFT: Policy = Policy {
    left: OnHeld::Refuse,
    right: OnHeld::Overwrite,
};

pub const KEEP_RIGHT: Policy = Policy {
    left: OnHeld::Overwrite,
    right: OnHeld::Refuse,
};

pub const OVERWRITE: Policy = Policy {
    left: OnHeld::Overwrite,
    right: OnHeld::Overwrite,
};
