//! The first claim of each offset.
ghost use Rattle.std.specs.Prelude.{◌≡◌, ◌∷◌, [], None, find, IfOk};
ghost use Rattle.std.specs.Iterator.{YieldsFirst, item_count};
ghost use Rattle.mxf_places.specs.Claims.{is_claimed};
ghost use Rattle.mxf_restore.specs.Steps.{AreSteps, NeverFall, goes_first, overlay, value_from};

use mxf_klv::{Keyed, OutOfMemory, up_to};
use mxf_places::Claim;
use std::alloc::Global;
use std::marker::Model;

/// From an offset on, in bytes, up to the next step: the first claim.
#[derive(Clone, Copy)]
pub(crate) struct Step {
    pub from: u64,
    pub claim: Option<Claim>,
}

/// Steps rise by their offsets.
impl Keyed for Step {
    ghost key = { λ s. s.from };

    fn key(&self) -> u64 {
        self.from
    }
}

/// Claims, with the first one of each offset: a binary search.
#[derive(Drop)]
pub(crate) struct FirstClaims<'a> {
    claims: &'a [Claim],
    steps: Vec<Step>,
}

impl<'a> Model for FirstClaims<'a> {
    ghost use Rattle.std.specs.Prelude.{List};
    ghost use Rattle.mxf_restore.specs.Steps.{AreSteps};
    ghost use Rattle.mxf_places.specs.declared.claim.Claim.{Claim};

    ghost Value = { List Claim };

    ghost view = { λ f. f.claims.now };

    ghost invariant = { λ f. AreSteps f.claims.now f.steps.items };
}

impl<'a> FirstClaims<'a> {
    /// The first claims of all offsets, by halving the claims. It takes memory.
    pub fn of(alloc: Global, claims: &'a [Claim]) -> Result<FirstClaims<'a>, OutOfMemory>
        ensures { IfOk result (λ f. f ≡ claims.now) }
    {
        let steps = steps_of(alloc, claims)?;
        Ok(FirstClaims { claims, steps })
    }

    /// The first claim of the offset, in bytes.
    pub fn claim_at(&self, offset: u64) -> Option<Claim>
        ensures { result ≡ find (is_claimed offset) self.now }
    {
        value_at(&self.steps, offset)
    }
}

/// What the last step at or below the offset says.
fn value_at(steps: &[Step], offset: u64) -> Option<Claim>
    requires { NeverFall 0 steps.now }
    ensures { result ≡ value_from None steps.now offset }
{
    let passed = up_to(steps, offset);
    if passed == 0 {
        return None;
    }
    steps[passed - 1].claim
}

/// The steps of the claims: those of the first half laid over those of the second.
fn steps_of(alloc: Global, claims: &[Claim]) -> Result<Vec<Step>, OutOfMemory>
    ensures { IfOk result (λ steps. AreSteps claims.now steps.items) }
{
    if claims.len() < 2 {
        return match claims.first() {
            Some(claim) => steps_of_one(alloc, *claim),
            None => Ok(Vec::new(alloc)),
        };
    }
    let (first, second) = claims.split_at(claims.len() / 2);
    let upper = steps_of(alloc, first)?;
    let lower = steps_of(alloc, second)?;
    laid_over(alloc, &upper, &lower)
}

/// The steps of one claim.
fn steps_of_one(alloc: Global, claim: Claim) -> Result<Vec<Step>, OutOfMemory>
    ensures { IfOk result (λ steps. AreSteps (claim ∷ []) steps.items) }
{
    let mut steps = Vec::new(alloc);
    if u128::from(claim.from) >= claim.end {
        return Ok(steps);
    }
    steps.push(Step {
        from: claim.from,
        claim: Some(claim),
    })?;
    if let Ok(end) = u64::try_from(claim.end) {
        steps.push(Step {
            from: end,
            claim: None,
        })?;
    }
    Ok(steps)
}

/// The steps of both lists, in which the upper ones go before the lower ones.
fn laid_over(alloc: Global, upper: &[Step], lower: &[Step]) -> Result<Vec<Step>, OutOfMemory>
    ensures { IfOk result (λ steps. steps.items ≡ overlay None upper.now None lower.now) }
{
    let mut steps = Vec::with_capacity(alloc, upper.len().saturating_add(lower.len()))?;
    for step in Overlay::of(upper, lower) {
        steps.push(step)?;
    }
    Ok(steps)
}

/// The steps that are left of two lists, one of which lies over the other, and what the two said last.
#[derive(Drop)]
struct Overlay<'a> {
    upper: &'a [Step],
    upper_claim: Option<Claim>,
    lower: &'a [Step],
    lower_claim: Option<Claim>,
}

impl<'a> Model for Overlay<'a> {
    ghost use Rattle.std.specs.Prelude.{List};
    ghost use Rattle.mxf_restore.specs.Steps.{overlay};
    ghost use Rattle.mxf_restore.specs.declared.first.Step.{Step};

    ghost Value = { List Step };

    ghost view = { λ o. overlay o.upper_claim o.upper.now o.lower_claim o.lower.now };
}

impl<'a> Overlay<'a> {
    fn of(upper: &'a [Step], lower: &'a [Step]) -> Overlay<'a>
        ensures { result ≡ overlay None upper.now None lower.now }
    {
        Overlay {
            upper,
            upper_claim: None,
            lower,
            lower_claim: None,
        }
    }
}

impl<'a> Iterator for Overlay<'a> {
    type Item = Step;

    ghost next_gives = { YieldsFirst (λ s. s) };

    ghost remaining = { item_count (λ s. s) };

    fn next(&mut self) -> Option<Step> {
        if goes_first(self.upper, self.lower) {
            let (step, left) = self.upper.split_first()?;
            self.upper = left;
            self.upper_claim = step.claim;
            return Some(Step {
                from: step.from,
                claim: step.claim.or(self.lower_claim),
            });
        }
        let (step, left) = self.lower.split_first()?;
        self.lower = left;
        self.lower_claim = step.claim;
        Some(Step {
            from: step.from,
            claim: self.upper_claim.or(step.claim),
        })
    }
}

/// Whether the first of the upper steps is there, and not after the first of the lower ones.
fn goes_first(upper: &[Step], lower: &[Step]) -> bool
    ensures { result ≡ goes_first upper.now lower.now }
{
    match (upper.first(), lower.first()) {
        (Some(upper), Some(lower)) => upper.from <= lower.from,
        (Some(_), None) => true,
        (None, _) => false,
    }
}
