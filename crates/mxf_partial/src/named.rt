//! The places that packs name and that are missing.
ghost use Rattle.std.specs.Prelude.{◌≡◌};
ghost use Rattle.std.specs.Option.{option_copied};
ghost use Rattle.mxf_views.specs.Rises.{RiseBy};
ghost use Rattle.mxf_partial.specs.Named.{is_named, named_at};

use mxf_klv::below;
use mxf_restore::NamedPlace;

/// The one of the places, which rise, that lies at an offset, in bytes: a binary search.
pub(crate) fn named_at(named: &[NamedPlace], place: u64) -> Option<&NamedPlace>
    requires { RiseBy (λ n. n.place) named.now }
    ensures { option_copied result ≡ named_at named.now place }
{
    let found = named.get(below(named, place))?;
    if found.place == place {
        Some(found)
    } else {
        None
    }
}

/// Whether one of the places, which rise, lies at an offset, in bytes.
pub(crate) fn is_named(named: &[NamedPlace], place: u64) -> bool
    requires { RiseBy (λ n. n.place) named.now }
    ensures { result ≡ is_named named.now place }
{
    named_at(named, place).is_some()
}
