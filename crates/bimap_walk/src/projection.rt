//! The two projections of a pair: its left and its right.
ghost use Rattle.std.specs.Prelude.{◌≡◌};
ghost use Rattle.std.specs.Map.Iter.{deref_pair};

/// What `Values` shows of a pair: its left or its right.
pub trait Projection<L, R>: Copy {
    type Value;

    /// This projection of a pair.
    ghost of: { L × R → Self.Value };

    /// Returns a reference to this projection.
    fn get<'a>(pair: (&'a L, &'a R)) -> &'a Self::Value
        ensures { result.now ≡ of (deref_pair pair.entry) };
}

/// The projection to the left.
#[derive(Clone, Copy)]
pub struct LeftProjection;

/// The projection to the right.
#[derive(Clone, Copy)]
pub struct RightProjection;

impl<L, R> Projection<L, R> for LeftProjection {
    type Value = L;

    ghost of = { λ p. p.0 };

    fn get<'a>(pair: (&'a L, &'a R)) -> &'a L {
        pair.0
    }
}

impl<L, R> Projection<L, R> for RightProjection {
    type Value = R;

    ghost of = { λ p. p.1 };

    fn get<'a>(pair: (&'a L, &'a R)) -> &'a R {
        pair.1
    }
}
