//! Fractions in lowest terms, and how durations go over from one rate to another.
ghost use Rattle.std.specs.Prelude.{◌≡◌, ◌<◌, true};
ghost use Rattle.mxf_sets.specs.Rate.{is_good};
ghost use Rattle.mxf_clocks.specs.Fractions.{greatest_divisor, lesser, lowest, rate_over, units_left, units_within};

use mxf_sets::Rate;

/// A number over another, in lowest terms.
#[derive(Clone, Copy, Debug, PartialEq, Eq)]
pub struct Fraction {
    pub numerator: u64,
    pub denominator: u64,
}

/// The greatest common divisor, by Euclid's steps.
fn greatest_divisor(a: u64, b: u64) -> u64
    requires { 0 < a }
    ensures divisor { result ≡ greatest_divisor a b }
    ensures some { 0 < result }
{
    let mut greater = a;
    let mut less = b;
    while less != 0 {
        let rest = greater % less;
        greater = less;
        less = rest;
    }
    greater
}

/// A number over another, both above 0.
fn lowest(a: u64, b: u64) -> Fraction
    requires upper { 0 < a }
    requires lower { 0 < b }
    ensures lowest { result ≡ lowest a b }
    ensures some { (0 < result.numerator) × (0 < result.denominator) }
{
    let divisor = greatest_divisor(a, b);
    Fraction {
        numerator: a / divisor,
        denominator: b / divisor,
    }
}

/// A rate over another, both good: how many of the first go by in one of the second.
pub(crate) fn rate_over(a: Rate, b: Rate) -> Fraction
    requires first { is_good a ≡ true }
    requires second { is_good b ≡ true }
    ensures over { result ≡ rate_over a b }
    ensures some { (0 < result.numerator) × (0 < result.denominator) }
{
    let upper = u64::from(a.numerator.unsigned_abs()) * u64::from(b.denominator.unsigned_abs());
    let lower = u64::from(a.denominator.unsigned_abs()) * u64::from(b.numerator.unsigned_abs());
    lowest(upper, lower)
}

/// How many units begin within a duration of timecodes, of which `step` go by in a unit.
fn units_within(step: Fraction, duration: u64) -> u128
    requires { 0 < step.numerator }
    ensures { result ≡ units_within step duration }
{
    let parts = u128::from(duration) * u128::from(step.denominator);
    (parts + u128::from(step.numerator - 1)) / u128::from(step.numerator)
}

/// How many of them are left from a unit on, if the duration is known.
pub(crate) fn units_left(step: Fraction, start: u128, duration: Option<u64>) -> Option<u128>
    requires { 0 < step.numerator }
    ensures { result ≡ units_left step start duration }
{
    Some(units_within(step, duration?).saturating_sub(start))
}

/// The lesser of two counts, or the one that is known.
pub(crate) fn lesser(a: Option<u64>, b: Option<u128>) -> Option<u128>
    ensures { result ≡ lesser a b }
{
    match (a, b) {
        (None, b) => b,
        (Some(a), None) => Some(u128::from(a)),
        (Some(a), Some(b)) => Some(u128::from(a).min(b)),
    }
}
