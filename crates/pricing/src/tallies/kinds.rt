// What each kind of tally computes.
ghost use Rattle.std.specs.Prelude.{◌≡◌};
ghost use Rattle.pricing.specs.Kinds.{total_ops, worst_ops};
ghost use Rattle.pricing.specs.KindLaws.{total_laws, worst_laws};

use super::total::Total;
use super::worst::Worst;
use crate::tally::Tally;

impl Tally for Total {
    ghost ops = { total_ops };

    ghost laws = { total_laws };

    fn neutral() -> Total
        ensures { result ≡ total_ops.neutral }
    {
        Total { sum: 0 }
    }

    fn join(self, other: Total) -> Total
        ensures { result ≡ total_ops.join self other }
    {
        Total {
            sum: self.sum.saturating_add(other.sum),
        }
    }

    fn not_above(self, other: Total) -> bool
        ensures { result ≡ total_ops.not_above self other }
    {
        self.sum <= other.sum
    }

    fn charge(pixels: u32, error: u32) -> Total
        ensures { result ≡ total_ops.charge pixels error }
    {
        Total {
            sum: u64::from(pixels) * u64::from(error),
        }
    }
}

impl Tally for Worst {
    ghost ops = { worst_ops };

    ghost laws = { worst_laws };

    fn neutral() -> Worst
        ensures { result ≡ worst_ops.neutral }
    {
        Worst { error: 0 }
    }

    fn join(self, other: Worst) -> Worst
        ensures { result ≡ worst_ops.join self other }
    {
        Worst {
            error: self.error.max(other.error),
        }
    }

    fn not_above(self, other: Worst) -> bool
        ensures { result ≡ worst_ops.not_above self other }
    {
        self.error <= other.error
    }

    fn charge(pixels: u32, error: u32) -> Worst
        ensures { result ≡ worst_ops.charge pixels error }
    {
        if pixels > 0 {
            Worst { error }
        } else {
            Worst { error: 0 }
        }
    }
}
