//! Lists in their order, each element once.
ghost use Rattle.std.specs.Prelude.{◌≡◌, []};
ghost use Rattle.std.specs.FinSet.{IsAntisymmetric};
ghost use Rattle.mxf_klv.specs.Rising.{IsRising, union};

/// Puts elements in their order, each once. Those that compare alike have to be one. It takes no memory.
pub fn sort_once<T: Ord + Drop>(items: &mut Vec<T>)
    requires { IsAntisymmetric T.cmp }
    ensures members { items.new.items ≡ union T.cmp [] items.old.items }
    ensures rising { IsRising T.cmp items.new.items }
{
    items.sort_unstable();
    items.dedup();
}
