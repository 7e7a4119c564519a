//! The order of runs.
ghost use Rattle.std.specs.Prelude.{◌≡◌};
ghost use Rattle.mxf_clocks.specs.RunOrder.{count_cmp, fraction_cmp, step_cmp};

use super::Run;
use crate::fraction::Fraction;
use mxf_klv::Keyed;
use std::cmp::Ordering;

/// How two fractions stand, by value.
fn cmp_fractions(a: Fraction, b: Fraction) -> Ordering
    ensures { result ≡ fraction_cmp a b }
{
    let one = u128::from(a.numerator) * u128::from(b.denominator.max(1));
    let other = u128::from(b.numerator) * u128::from(a.denominator.max(1));
    one.cmp(&other)
        .then(a.numerator.cmp(&b.numerator))
        .then(a.denominator.cmp(&b.denominator))
}

/// How two counts stand: none comes last.
fn cmp_counts(a: Option<u128>, b: Option<u128>) -> Ordering
    ensures { result ≡ count_cmp a b }
{
    a.is_none()
        .cmp(&b.is_none())
        .then(a.unwrap_or(0).cmp(&b.unwrap_or(0)))
}

impl Run {
    /// How two runs stand by what their numbers go by.
    fn cmp_steps(&self, other: &Run) -> Ordering
        ensures { result ≡ step_cmp self.now other.now }
    {
        self.base
            .cmp(&other.base)
            .then(self.is_drop.cmp(&other.is_drop))
            .then(cmp_fractions(self.step, other.step))
            .then(self.passed.cmp(&other.passed))
    }
}

impl PartialEq for Run {
    ghost use Rattle.std.specs.Ordering.{eq_by_cmp};
    ghost use Rattle.std.specs.Cmp.{partial_equiv_from_equiv};
    ghost use Rattle.mxf_clocks.specs.RunOrder.{run_cmp};
    ghost use Rattle.mxf_clocks.specs.RunLaws.{run_equiv};

    ghost eq = { eq_by_cmp run_cmp };

    ghost laws = { partial_equiv_from_equiv run_equiv };

    fn eq(&self, other: &Run) -> bool {
        self.cmp(other) == Ordering::Equal
    }
}

impl Eq for Run {
    ghost use Rattle.mxf_clocks.specs.RunLaws.{run_equiv};

    ghost laws = { run_equiv };
}

impl PartialOrd for Run {
    ghost use Rattle.std.specs.Ordering.{as_partial_cmp};
    ghost use Rattle.std.specs.Cmp.{partial_order_from_agreeing_total};
    ghost use Rattle.std.specs.Prelude.{refl};
    ghost use Rattle.mxf_clocks.specs.RunOrder.{run_cmp};
    ghost use Rattle.mxf_clocks.specs.RunLaws.{run_total};

    ghost partial_cmp = { as_partial_cmp run_cmp };

    ghost laws = { partial_order_from_agreeing_total run_cmp run_total (λ _ _. refl) (λ _ _. refl) };

    fn partial_cmp(&self, other: &Run) -> Option<Ordering> {
        Some(self.cmp(other))
    }
}

impl Ord for Run {
    ghost use Rattle.std.specs.Prelude.{refl};
    ghost use Rattle.mxf_clocks.specs.RunOrder.{run_cmp};
    ghost use Rattle.mxf_clocks.specs.RunLaws.{run_total};

    ghost cmp = { run_cmp };

    ghost total = { run_total };

    ghost matches_partial_cmp = { λ _ _. refl };

    ghost matches_eq = { λ _ _. refl };

    fn cmp(&self, other: &Run) -> Ordering {
        self.index_sid
            .cmp(&other.index_sid)
            .then(self.position.cmp(&other.position))
            .then(self.number.cmp(&other.number))
            .then(cmp_counts(self.count, other.count))
            .then(self.cmp_steps(other))
    }
}

/// Runs rise by their IndexSIDs.
impl Keyed for Run {
    ghost key = { λ r. r.index_sid };

    fn key(&self) -> u64 {
        u64::from(self.index_sid)
    }
}
