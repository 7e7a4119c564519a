//! Telling that sources dispute packets, and which recordings they are of.
use crate::apart::tell_apart;
use crate::offsets::views_of;
use crate::telling::tell_on_screen;
use mxf_forms::hex_text;
use mxf_read::PieceReport;
use mxf_references::{Target, resolved};
use mxf_saving::Source;
use mxf_sets::Package;
use mxf_views::Views;
use std::alloc::{AllocError, Global};
use std::rt::Files;

/// Tells what of the sources doesn't go together, or else that their packets are disputed.
pub fn tell_together<R: Files + Eprint + AllocGlobal>(
    rt: &R,
    sources: &[Source<'_>],
    reports: &[PieceReport],
    views: &Views,
) -> Result<(), AllocError> {
    if tell_apart(rt, sources, reports, views)? {
        tell_disputes(rt, sources)?;
    }
    Ok(())
}

/// A source, and the identifier of the first package that it describes, in hexadecimal digits.
#[derive(Drop)]
struct Described<'a> {
    source: Source<'a>,
    package: String,
}

/// Tells that packets are disputed: since sources are of two recordings, if the packages that they describe say so.
fn tell_disputes<R: Files + Eprint + AllocGlobal>(
    rt: &R,
    sources: &[Source<'_>],
) -> Result<(), AllocError> {
    let described = describing(rt, sources)?;
    if let Some((first, others)) = described.split_first() {
        for other in others {
            if other.package.as_str() != first.package.as_str() {
                return tell_two(rt, first, other);
            }
        }
    }
    tell_on_screen(
        rt,
        &"hint: packets are in dispute: sources says which source has which reading",
    )
}

/// Tells that sources and those beside them are of two recordings, if the packages that the first of each describe say so.
/// Whether they do.
pub fn tell_two_recordings<R: Files + Eprint + AllocGlobal>(
    rt: &R,
    beside: &[Source<'_>],
    sources: &[Source<'_>],
) -> Result<bool, AllocError> {
    let earlier = describing(rt, beside)?;
    let later = describing(rt, sources)?;
    match (earlier.first(), later.first()) {
        (Some(one), Some(other)) if one.package.as_str() != other.package.as_str() => {
            tell_two(rt, one, other)?;
            Ok(true)
        }
        _ => Ok(false),
    }
}

/// Tells that two sources describe other packages.
fn tell_two<R: Eprint + AllocGlobal>(
    rt: &R,
    one: &Described<'_>,
    other: &Described<'_>,
) -> Result<(), AllocError> {
    let (a, b) = (one.source, other.source);
    let (of_a, of_b) = (one.package.as_str(), other.package.as_str());
    let line = format!(in rt.alloc();
        "hint: these are two recordings: {a} describes the package {of_a}, and {b} the package {of_b}"
    )?;
    tell_on_screen(rt, &line.as_str())
}

/// The sources that describe a package, in their order.
fn describing<'a, R: Files + AllocGlobal>(
    rt: &R,
    sources: &[Source<'a>],
) -> Result<Vec<Described<'a>>, AllocError> {
    let mut described = Vec::new(rt.alloc());
    for source in sources {
        if let Some(package) = package_of(rt, source) {
            let source = *source;
            described.push(Described { source, package })?;
        }
    }
    Ok(described)
}

/// The identifier of the first package that a source describes, in its front or in its catalogue; none without memory.
fn package_of<R: Files + AllocGlobal>(rt: &R, source: &Source<'_>) -> Option<String> {
    let views = views_of(rt, source)?;
    package_in(rt.alloc(), &views)
}

/// The identifier of the first package that views describe; none without memory.
fn package_in(alloc: Global, views: &Views) -> Option<String> {
    let resolved = resolved(alloc, views).ok()??;
    let packages = resolved.packages.as_slice().iter();
    let mut offsets = packages.filter_map(|package| match package.target {
        Target::Found(offset) => Some(offset),
        _ => None,
    });
    let note = views.catalogue().clear_at(offsets.next()?)?;
    let uid = Package::read(note.value()?).ok()?.package_uid();
    hex_text(alloc, &uid).ok()
}
