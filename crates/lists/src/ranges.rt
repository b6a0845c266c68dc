//! The ranges of the items of a slice.

ghost use Rattle.std.specs.Prelude.{◌<◌, ◌^◌};
ghost use Rattle.std.specs.List.{AllByRecursion};

/// Values that keep within a range. A workaround: it tells the prover that each item of a slice is
/// in range, which it does not know before the item is read. It does nothing when it runs.
pub trait InRange: Copy {
    /// Its range.
    ghost range: { Self → Type 0 };

    /// Does nothing, and says the range.
    fn see(self)
        ensures { range self };
}

impl InRange for u64 {
    ghost range = { λ n. n < 2 ^ 64 };

    #[inline(always)]
    fn see(self) {}
}

/// Does nothing, and says the ranges of all items.
#[inline(always)]
pub fn see_all<T: InRange>(items: &[T])
    ensures { AllByRecursion T.range items.now }
{
    for item in items {
        (*item).see();
    }
}
