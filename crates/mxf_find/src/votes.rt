//! The number with the most votes.
ghost use Rattle.std.specs.Prelude.{◌≡◌, [], IfNone, IfSome};
ghost use Rattle.std.specs.List.Sorted.{IsNonDecreasing};
ghost use Rattle.mxf_find.specs.Votes.{IsMostVoted};

use mxf_klv::count_with_key;

/// The number with the most votes, of several the least: n log n of them. None without a vote.
pub(crate) fn most_voted(mut votes: Vec<u64>) -> Option<u64>
    ensures some { IfSome result (IsMostVoted votes.items) }
    ensures none { IfNone result (votes.items ≡ []) }
{
    votes.sort_unstable();
    first_of_most(&votes)
}

/// Of numbers that don't fall the one that stands there most often, of several the least.
fn first_of_most(votes: &[u64]) -> Option<u64>
    requires { IsNonDecreasing votes.now }
    ensures some { IfSome result (IsMostVoted votes.now) }
    ensures none { IfNone result (votes.now ≡ []) }
{
    let mut most = *votes.first()?;
    let mut count = count_with_key(votes, most);
    for vote in votes {
        let others = count_with_key(votes, *vote);
        if others > count {
            most = *vote;
            count = others;
        }
    }
    Some(most)
}
