//! Telling what an answer leaves open.
use crate::again::tell_again;
use crate::fragment::tell_fragment;
use crate::open_header::{is_open, tell_open_header};
use mxf_asked::{Ask, Told};
use mxf_klv::OutOfMemory;
use mxf_places::AtHand;
use mxf_views::Views;

/// Tells what an answer leaves open: what packets say where header metadata say nothing, or are open, and
/// which packets before bytes that a plan orders again may be bad too.
pub fn tell_left_open<R: Eprint + AllocGlobal>(
    rt: &R,
    asked: Told<'_>,
    views: &Views,
    at_hand: &AtHand,
) -> Result<(), OutOfMemory> {
    match (asked, views.preferred()) {
        (Told::Answer(Ask::Describe), None) => tell_fragment(rt, views),
        (Told::Answer(Ask::Describe), Some(copy)) if is_open(&copy) => tell_open_header(rt, views),
        (Told::Answer(Ask::Plan), _) => tell_again(rt, views, at_hand),
        _ => Ok(()),
    }
}
