//! The laws of what orders ask for: functions that do nothing, whose clauses hold of all values.
ghost use Rattle.std.specs.Prelude.{◌≡◌, ◌≢◌, ◌↔◌, ◌⊎◌, ◌<◌, ◌≤◌, ℕ, Bool, IsTrue, false, true, length, List, [], Some};
ghost use Rattle.mxf_klv.specs.Kind.{kind_of};
ghost use Rattle.mxf_klv.specs.Parts.{NoteParts};
ghost use Rattle.mxf_klv.specs.Rising.{In};
ghost use Rattle.mxf_klv.specs.declared.kinds.Kind.TheVariants.{Fill};
ghost use Rattle.mxf_catalogue.specs.Content.{IsContent};
ghost use Rattle.mxf_catalogue.specs.Runs.{LiesIn};
ghost use Rattle.mxf_places.specs.AtHand.{AreAtHand, AtHandParts};
ghost use Rattle.mxf_places.specs.Held.{IsHeld};
ghost use Rattle.mxf_places.specs.Named.{StandsAlone};
ghost use Rattle.mxf_places.specs.declared.at_hand.OffsetRange.{OffsetRange};
ghost use Rattle.mxf_restore.specs.Orders.{IsAsked, WasHandedIn};
ghost use Rattle.mxf_restore.specs.Plan.{LiesInOrder, plan_of};
ghost use Rattle.mxf_restore.specs.Sections.{IsHole, sections_of};
ghost use Rattle.mxf_restore.specs.declared.section.Section.{Section};
ghost use Rattle.mxf_restore.specs.declared.plan.Order.{Order};
ghost use Rattle.mxf_hand.specs.Given.{IsGiven, SourceParts};
ghost use Rattle.mxf_views.specs.Partitions.{PartitionParts};
ghost use Rattle.mxf_partial.specs.Helping.{helping_of};
ghost use Rattle.mxf_partial.specs.MetadataPlans.{metadata_plan};
ghost use Rattle.mxf_partial.specs.Orders.{IsUnitPlan, UnitPlanParts, helping_orders};
ghost use Rattle.mxf_partial.specs.Wanted.{WantedParts, hand_of, notes_of};
ghost use Rattle.mxf_partial.specs.Ways.{end_of_way, way_of};
ghost use Rattle.mxf_progress.specs.Restoring.{AreGivenBy, AreRounds, HasUpTo, IsOrderOf, IsRound, ungiven_of};
ghost use Rattle.mxf_progress.specs.Progress.{IsBeyondAll, IsLackedAt, IsUngivenAt, LacksOfHead};
ghost use Rattle.mxf_progress.specs.RestoredFirst.{Helps, HelpsUnits};
ghost use Rattle.mxf_progress.specs.WayEnds.{GoesOnAt, IsOnWay, IsWayEnd};

/// A law of [`Plan::orders`](mxf_restore::Plan::orders): each order that isn't `again` asks for a byte that isn't
/// there. It has an offset that isn't held and isn't at hand; or it begins with a head of whose key and length a byte
/// isn't given, and all the rest of it is at hand. If it has an end, some offset below that isn't given. Each order
/// that is `again` was handed in: all its offsets are given, or the first 25 are at hand if it has no end.
pub fn each_order_asks_for_a_byte()
    ensures new { (at : AtHandParts) (notes : List NoteParts) (o : Order) → IsContent notes → AreAtHand at
        → In o (plan_of at notes).orders → o.again ≡ false
        → ((x : ℕ) × IsLackedAt at notes o x) ⊎ LacksOfHead at notes o }
    ensures ungiven { (at : AtHandParts) (notes : List NoteParts) (o : Order) (end : ℕ) → IsContent notes
        → AreAtHand at → In o (plan_of at notes).orders → o.again ≡ false → o.end ≡ Some end
        → (x : ℕ) × IsUngivenAt at o x }
    ensures again { (at : AtHandParts) (notes : List NoteParts) (o : Order) → IsContent notes → AreAtHand at
        → In o (plan_of at notes).orders → o.again ≡ true → WasHandedIn at o.start o.end }
{}

/// A law of [`Plan::orders`](mxf_restore::Plan::orders): of an order that lies inside a packet no byte is held, and
/// none is at hand.
pub fn orders_inside_lack_all()
    ensures { (at : AtHandParts) (notes : List NoteParts) (o : Order) (x : ℕ) → IsContent notes → AreAtHand at
        → In o (plan_of at notes).orders → o.inside ≡ true → LiesInOrder o x → IsLackedAt at notes o x }
{}

/// A law of [`Plan::orders`](mxf_restore::Plan::orders): a plan has no order exactly if nothing is asked for of a
/// section, and exactly if nothing says that a byte lies in a hole, and a pack is held that stands at the end of a file
/// alone. So where a hole ends at something that is held, or is cut at a place that a pack names, something is ordered.
/// What follows all that is held is ordered too, as long as neither a footer partition nor a random index pack is held.
pub fn nothing_is_ordered_where_nothing_lacks()
    ensures sections { (at : AtHandParts) (notes : List NoteParts) → IsContent notes → AreAtHand at
        → ((plan_of at notes).orders ≡ [])
        ↔ ((p : Section) (o : Order) → In p (sections_of notes) → ¬ IsAsked at notes p o) }
    ensures holes { (at : AtHandParts) (notes : List NoteParts) → IsContent notes → AreAtHand at
        → ((plan_of at notes).orders ≡ []) ↔ ((h : OffsetRange) → IsHole notes h → IsBeyondAll at notes h) }
{}

/// A law of [`UnitPlan::orders`](mxf_partial::UnitPlan::orders): each order of a plan for edit units, or of one for
/// header metadata, that isn't `again` and has an end asks for a byte that isn't given. Each that is `again` was handed
/// in: all its offsets are given, or the first 25 are at hand if it has no end.
pub fn each_order_for_units_asks_for_a_byte()
    ensures ungiven { (w : WantedParts) (p : UnitPlanParts) (o : Order) (end : ℕ) → IsUnitPlan w p
        → AreAtHand (hand_of w) → In o p.orders → o.again ≡ false → o.end ≡ Some end
        → (x : ℕ) × IsUngivenAt (hand_of w) o x }
    ensures again { (w : WantedParts) (p : UnitPlanParts) (o : Order) → IsUnitPlan w p → AreAtHand (hand_of w)
        → In o p.orders → o.again ≡ true → WasHandedIn (hand_of w) o.start o.end }
    ensures metadata_ungiven { (at : AtHandParts) (notes : List NoteParts) (o : Order) (end : ℕ) → AreAtHand at
        → In o (metadata_plan at notes).orders → o.again ≡ false → o.end ≡ Some end → (x : ℕ) × IsUngivenAt at o x }
    ensures metadata_again { (at : AtHandParts) (notes : List NoteParts) (o : Order) → AreAtHand at
        → In o (metadata_plan at notes).orders → o.again ≡ true → WasHandedIn at o.start o.end }
{}

/// A law of [`Plan::orders`](mxf_restore::Plan::orders) and of [`UnitPlan::orders`](mxf_partial::UnitPlan::orders):
/// whoever restores by plans gets on with each round. What was given is given still, and a byte of the file is given
/// that wasn't. So fewer bytes of the file aren't given, and there are no more rounds than there were such bytes. A
/// round can be made as long as there is an order that isn't `again`, and the file has what is ordered. It holds of any
/// contents, so of those that are put together too.
pub fn restores_end()
    ensures begins { (file : List ℕ) (sources : List SourceParts) (at : AtHandParts) (notes : List NoteParts)
        (o : Order) → IsContent notes → AreGivenBy sources at → IsOrderOf at notes o → o.again ≡ false
        → HasUpTo file at o o.end → (after : List SourceParts) × IsRound file sources after }
    ensures keeps { (file : List ℕ) (before after : List SourceParts) (x : ℕ) → IsRound file before after
        → IsGiven before x → IsGiven after x }
    ensures gains { (file : List ℕ) (before after : List SourceParts) → IsRound file before after
        → (x : ℕ) × (x < length file) × (¬ IsGiven before x) × IsGiven after x }
    ensures falls { (file : List ℕ) (before after : List SourceParts) (at then : AtHandParts)
        → IsRound file before after → AreGivenBy before at → AreGivenBy after then
        → ungiven_of file then.given < ungiven_of file at.given }
    ensures ends { (file : List ℕ) (sources : List SourceParts) (at : AtHandParts)
        (rounds : List (List SourceParts)) → AreGivenBy sources at → AreRounds file sources rounds
        → length rounds ≤ ungiven_of file at.given }
{}

/// A law of [`UnitPlan::of`](mxf_partial::UnitPlan::of): what is restored first of a section goes by the place at which
/// its packet begins. Of the header partition it is the front. Of a footer partition that a pack names, and of index
/// table segments, it is all that is ordered. Of header metadata it is so if their end is known, and else the front;
/// but nothing, if the preferred copy is finished and each wanted unit is indexed. Of all else it is nothing.
pub fn helping_by_definition()
    ensures sections { (described : Bool) (at : AtHandParts) (notes : List NoteParts) (p : Section) (o : Order)
        → IsContent notes → AreAtHand at
        → In o (helping_of described at notes p) ↔ Helps (IsTrue described) at notes p o }
    ensures units { (w : WantedParts) (o : Order) → IsContent (notes_of w) → AreAtHand (hand_of w)
        → In o (helping_orders w) ↔ HelpsUnits w o }
{}

/// A law of [`UnitPlan::of`](mxf_partial::UnitPlan::of): the way from a partition pack goes over its header metadata,
/// then over its index table segments, and over the fills before and after them. It ends where it isn't known what
/// begins, if the pack counts bytes there, or after all of these. Each byte of it is of one of the two or of a fill,
/// and no fill begins where it ends. A unit asks for the end of a way if nothing is held there, and the file may reach
/// so far.
pub fn ways_by_definition()
    ensures ends { (notes : List NoteParts) (p : PartitionParts) (x : ℕ) → IsContent notes
        → (end_of_way notes p ≡ Some x) ↔ IsWayEnd notes p x }
    ensures goes_on { (notes : List NoteParts) (p : PartitionParts) (x : ℕ) → IsContent notes
        → (way_of notes p ≡ Some x) ↔ GoesOnAt notes p x }
    ensures bytes { (notes : List NoteParts) (p : PartitionParts) (x y : ℕ) → IsContent notes
        → IsWayEnd notes p x → p.end ≤ y → y < x → IsOnWay notes p y }
    ensures no_fill { (notes : List NoteParts) (p : PartitionParts) (x : ℕ) (n : NoteParts) → IsWayEnd notes p x
        → StandsAlone notes n x → kind_of n.key ≢ Fill }
{}
