//! The places that wanted units ask for, each with the pack by which it is known.
ghost use Rattle.std.specs.Prelude.{◌≡◌, ◌↔◌, ◌⊎◌, ◌++◌, true, IfOk, OnOk};
ghost use Rattle.std.specs.List.{filter_map};
ghost use Rattle.std.specs.List.Sorted.{IsNonDecreasingBy};
ghost use Rattle.mxf_klv.specs.Rising.{In};
ghost use Rattle.mxf_restore.specs.declared.named.NamedPlace.{NamedPlace};
ghost use Rattle.mxf_views.specs.Rises.{RiseBy};
ghost use Rattle.mxf_partial.specs.Asks.{IsAskedByIndex, IsAskedByUnit};
ghost use Rattle.mxf_partial.specs.Named.{AreNamed, named_at};
ghost use Rattle.mxf_partial.specs.Wanted.{notes_of};

use crate::between::add_chosen;
use crate::named::named_at;
use crate::near::add_partitions;
use crate::wanted_units::WantedUnits;
use crate::ways::add_ways;
use mxf_klv::OutOfMemory;
use mxf_restore::NamedPlace;
use std::alloc::Global;

/// The places that are asked for, rising. Those where the index may go on come only if that is looked for. They take
/// memory.
pub(crate) fn asked_places(
    alloc: Global,
    wanted: &WantedUnits<'_>,
    named: &[NamedPlace],
    is_index_sought: bool,
) -> Result<Vec<NamedPlace>, OutOfMemory>
    requires { AreNamed (notes_of wanted.now) named.now }
    ensures members { IfOk result (λ v. (n : NamedPlace) → In n v.items
        ↔ (IsAskedByUnit wanted.now n.place n.source
        ⊎ ((is_index_sought ≡ true)
        × IsAskedByIndex wanted.now n.place n.source))) }
    ensures rising { IfOk result (λ v. IsNonDecreasingBy (λ n. n.place) v.items) }
{
    let mut asked = asked_by_units(alloc, wanted, named)?;
    if is_index_sought {
        add_chosen(
            alloc,
            &mut asked,
            wanted.units(),
            named,
            wanted.questions().unindexed(),
        )?;
    }
    Ok(in_order(asked))
}

/// The places that units ask for. They take memory.
fn asked_by_units(
    alloc: Global,
    wanted: &WantedUnits<'_>,
    named: &[NamedPlace],
) -> Result<Vec<NamedPlace>, OutOfMemory>
    requires { AreNamed (notes_of wanted.now) named.now }
    ensures { IfOk result (λ v. (n : NamedPlace) → In n v.items
        ↔ IsAskedByUnit wanted.now n.place n.source) }
{
    let units = wanted.units();
    let questions = wanted.questions();
    let mut asked = Vec::new(alloc);
    add_partitions(alloc, &mut asked, units, named, questions.partitions())?;
    add_ways(alloc, &mut asked, units, questions.ways())?;
    add_limits(&mut asked, named, questions.limits())?;
    Ok(asked)
}

/// Adds those of the limits, in bytes, that packs name.
fn add_limits(
    asked: &mut Vec<NamedPlace>,
    named: &[NamedPlace],
    limits: &[u64],
) -> Result<(), OutOfMemory>
    requires { RiseBy (λ n. n.place) named.now }
    ensures { OnOk result (asked.new.items ≡ asked.old.items ++ filter_map (named_at named.now) limits.now) }
{
    for limit in limits {
        if let Some(place) = named_at(named, *limit) {
            asked.push(*place)?;
        }
    }
    Ok(())
}

/// The places in their order.
fn in_order(mut asked: Vec<NamedPlace>) -> Vec<NamedPlace>
    ensures members { (n : NamedPlace) → In n result.items ↔ In n asked.items }
    ensures rising { IsNonDecreasingBy (λ n. n.place) result.items }
{
    asked.sort_unstable_by_key(|named| named.place);
    asked
}
