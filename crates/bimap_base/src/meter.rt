//! Counts of comparisons of keys and of touches of nodes.
ghost use Rattle.std.specs.Prelude.{◌≡◌, ℕ, ◌+◌};

/// Counts comparisons of keys and touches of nodes. Contracts bound both counts. A meter need not store them at run time.
pub trait Meter {
    /// The number of comparisons of keys that were counted.
    ghost comparisons: { Self → ℕ };

    /// The number of reads and writes of nodes that were counted.
    ghost touches: { Self → ℕ };

    /// Counts a comparison of keys.
    fn compared(&mut self)
        ensures comparisons { comparisons self.new ≡ comparisons self.old + 1 }
        ensures touches { touches self.new ≡ touches self.old };

    /// Counts a read or a write of a node.
    fn touched(&mut self)
        ensures comparisons { comparisons self.new ≡ comparisons self.old }
        ensures touches { touches self.new ≡ touches self.old + 1 };
}
