//! What settling did.
ghost use Rattle.std.specs.Prelude.{◌≡◌, ◌+◌, ◌^◌, ◌<◌};
ghost use Rattle.rapid_gc.specs.Chains.{counted};

/// What settling did.
#[derive(Clone, Copy, PartialEq, Eq, Debug)]
pub struct Settled {
    /// How often a record's visible value was written again.
    pub rewritten: u32,
    /// How often a list was cut to one version.
    pub cut: u32,
    /// How many places were freed. The count stands still at its type's end.
    pub places: u32,
}

impl Settled {
    /// Nothing yet.
    pub(crate) fn none() -> Self
        ensures rewritten { result.rewritten ≡ 0 }
        ensures cut { result.cut ≡ 0 }
        ensures places { result.places ≡ 0 }
    {
        Settled {
            rewritten: 0,
            cut: 0,
            places: 0,
        }
    }

    /// With what became of one record more.
    pub(crate) fn with(self, one: Settled) -> Self
        requires rewritten { self.rewritten + one.rewritten < 2 ^ 32 }
        requires cut { self.cut + one.cut < 2 ^ 32 }
        ensures rewritten { result.rewritten ≡ self.rewritten + one.rewritten }
        ensures cut { result.cut ≡ self.cut + one.cut }
        ensures places { result.places ≡ counted (self.places + one.places) }
    {
        Settled {
            rewritten: self.rewritten + one.rewritten,
            cut: self.cut + one.cut,
            places: self.places.saturating_add(one.places),
        }
    }
}
