//! Small files: which are well-formed, what bytes they have, and what reading them from the front says.
ghost use Rattle.std.specs.Prelude.{◌≡◌, ℕ, ◌+◌, ◌<◌, ◌≤◌, ◌↔◌, ◌∷◌, [], map, None, Some, is_some, true, false};
ghost use Rattle.mxf_klv.specs.Kind.{kind_of};
ghost use Rattle.mxf_klv.specs.Note.{greatest_end};
ghost use Rattle.mxf_klv.specs.declared.kinds.Status.TheVariants.{OpenIncomplete, ClosedIncomplete, OpenComplete};
ghost use Rattle.mxf_klv.specs.declared.kinds.Status.TheVariants.{ClosedComplete};
ghost use Rattle.mxf_sets.specs.Offset.{stream_offset};
ghost use Rattle.mxf_sets.specs.declared.pack.part.PackPart.TheVariants.{Header};
ghost use Rattle.mxf_klv.specs.declared.kinds.Kind.{Kind};
ghost use Rattle.mxf_klv.specs.declared.kinds.Kind.TheVariants as kinds;
ghost use Rattle.mxf_views.specs.Copies.{IsSetKind, is_candidate, is_fill, is_preface, is_primer, is_set, status_rank};
ghost use Rattle.mxf_views.specs.Copies.{rank};
ghost use Rattle.mxf_views.specs.Places.{is_segment};
ghost use Rattle.mxf_views.specs.RandomIndex.{is_rip};
ghost use Rattle.mxf_views.specs.Reading.{chain_read, copies_alone, copies_read, link_read_at, links_read};
ghost use Rattle.mxf_views.specs.Reading.{partitions_read, place_read, preferred_read, rip_read, segments_read};
ghost use Rattle.mxf_views.specs.Reading.{sets_read};
ghost use Rattle.mxf_views.specs.WellFormed.{IsWellFormed, file_bytes};
ghost use Rattle.mxf_findings.specs.WorkedBytes.{h_bytes, m_bytes, n_bytes, r_bytes, w_bytes};
ghost use Rattle.mxf_findings.specs.RefusedFiles as refused;
ghost use Rattle.mxf_findings.specs.WorkedFiles.{agreeing_file, filled_file, m_file, open_file, twice_filled_file};
ghost use Rattle.mxf_findings.specs.WorkedFiles.{constant, copy_of_86, essence, h_file, linked_preface, material};
ghost use Rattle.mxf_findings.specs.WorkedFiles.{n_copies, n_file, numbers, pack, primer, r_file, storage};
ghost use Rattle.mxf_findings.specs.WorkedFiles.{three_entries, w_file, w_rip};
ghost use Rattle.mxf_findings.specs.WorkedSegments.{constant_units, entry_units, sliced_segment, sliced_units};
ghost use Rattle.mxf_views.specs.declared.chain.Chain.TheVariants as chains;
ghost use Rattle.mxf_views.specs.declared.chain.Link.TheVariants as links;
ghost use Rattle.mxf_views.specs.declared.copy.CopyInfo.{CopyInfo};
ghost use Rattle.mxf_views.specs.declared.index.place.Place.TheVariants as places;
ghost use Rattle.mxf_views.specs.declared.random_index.RipView.TheVariants as rips;

/// A law: which of some small files are well-formed. Two have no footer partition. Of the others one has a fill before
/// its header metadata, one two of them, one an open header partition, and one two segments of an index that agree.
pub fn small_files_are_well_formed_or_not()
    ensures two_copies { IsWellFormed n_file }
    ensures indexed { IsWellFormed w_file }
    ensures no_footer { ¬ IsWellFormed h_file }
    ensures no_footer_either { ¬ IsWellFormed r_file }
    ensures random_index { IsWellFormed m_file }
    ensures filled { IsWellFormed filled_file }
    ensures twice_filled { IsWellFormed twice_filled_file }
    ensures open_header { IsWellFormed open_file }
    ensures agreeing_segments { IsWellFormed agreeing_file }
{}

/// A law: each condition of a well-formed file refuses a file that meets all others.
pub fn each_condition_of_well_formed_files_refuses_a_file()
    ensures packets { ¬ IsWellFormed refused.narrow_length }
    ensures within { (bytes : ℕ) → IsWellFormed (refused.long_file bytes) ↔ (241 + bytes ≤ greatest_end) }
    ensures header { ¬ IsWellFormed refused.no_header }
    ensures one_header { ¬ IsWellFormed refused.two_headers }
    ensures footer { ¬ IsWellFormed refused.no_footer }
    ensures footer_last { ¬ IsWellFormed refused.early_footer }
    ensures readable { ¬ IsWellFormed refused.empty_segment }
    ensures this { ¬ IsWellFormed refused.misplaced_footer }
    ensures previous { ¬ IsWellFormed refused.unlinked_footer }
    ensures metadata { ¬ IsWellFormed refused.no_metadata }
    ensures exact_metadata { ¬ IsWellFormed refused.short_metadata }
    ensures metadata_alone { ¬ IsWellFormed refused.metadata_with_a_pack }
    ensures index { ¬ IsWellFormed refused.differing_segments }
    ensures random_index { ¬ IsWellFormed refused.other_entries }
    ensures random_index_last { ¬ IsWellFormed refused.early_random_index }
{}

/// A law: the bytes of the small files are those that stand in tests/worked.
pub fn small_files_have_their_bytes()
    ensures h { file_bytes h_file ≡ h_bytes }
    ensures m { file_bytes m_file ≡ m_bytes }
    ensures n { file_bytes n_file ≡ n_bytes }
    ensures r { file_bytes r_file ≡ r_bytes }
    ensures w { file_bytes w_file ≡ w_bytes }
{}

/// A law: what the reading from the front says of the small file with two copies of the header metadata.
pub fn two_copies_are_read_from_the_front()
    ensures links { links_read None (partitions_read 0 n_file) ≡ (0, Some links.First) ∷ (194, Some links.Held) ∷ [] }
    ensures chain { chain_read (partitions_read 0 n_file) ≡ chains.Whole }
    ensures copies { copies_alone (copies_read 0 n_file) ≡ n_copies }
    ensures sets { map (λ n. n.offset) (sets_read (copies_read 0 n_file) 194) ≡ 348 ∷ [] }
    ensures preferred { preferred_read (copies_alone (copies_read 0 n_file)) ≡ Some (copy_of_86 194 302) }
    ensures segments { segments_read 0 n_file ≡ [] }
    ensures rip { rip_read (partitions_read 0 n_file) 0 n_file ≡ rips.Absent }
{}

/// A law: what the reading from the front says of the small file with an index and a random index pack.
pub fn an_indexed_file_is_read_from_the_front()
    ensures links { links_read None (partitions_read 0 w_file)
        ≡ (0, Some links.First) ∷ (108, Some links.Held) ∷ (336, Some links.Held) ∷ [] }
    ensures link { link_read_at 108 (links_read None (partitions_read 0 w_file)) ≡ Some links.Held }
    ensures no_link { link_read_at 216 (links_read None (partitions_read 0 w_file)) ≡ None }
    ensures chain { chain_read (partitions_read 0 w_file) ≡ chains.Whole }
    ensures copies { copies_read 0 w_file ≡ [] }
    ensures place { place_read 1 10 (segments_read 0 w_file) ≡ places.At 2 2500000 }
    ensures last_place { place_read 1 99 (segments_read 0 w_file) ≡ places.At 2 24750000 }
    ensures no_place { place_read 1 100 (segments_read 0 w_file) ≡ places.NotIndexed }
    ensures other_index { place_read 2 10 (segments_read 0 w_file) ≡ places.NotIndexed }
    ensures rip { rip_read (partitions_read 0 w_file) 0 w_file ≡ w_rip }
{}

/// A law: the rules that the views and the reading from the front share, which no law of whole files can tell apart
/// from others: how statuses stand to one another, which copies are candidates, which kinds of packets are sets, fills,
/// primer packs, Prefaces, index table segments and random index packs, and which stream offsets segments give: of
/// units of one size, of entries, and of entries with slices and position tables.
pub fn shared_rules_are_these()
    ensures statuses { (status_rank OpenIncomplete < status_rank OpenComplete)
        × (status_rank OpenComplete < status_rank ClosedIncomplete)
        × (status_rank ClosedIncomplete < status_rank ClosedComplete) }
    ensures finished { (c d : CopyInfo) → c.finished ≡ true → d.finished ≡ false → rank d < rank c }
    ensures candidates { (c : CopyInfo) → (is_candidate c ≡ true) ↔ ((is_some c.start ≡ true) × (c.prefaces ≡ 1)) }
    ensures sets { (is_set (kind_of linked_preface.key) ≡ true) × (is_set (kind_of storage.key) ≡ true)
        × (is_set (kind_of material.key) ≡ true) }
    ensures no_sets { (is_set (kind_of primer.key) ≡ false) × (is_set (kind_of constant.key) ≡ false)
        × (is_set (kind_of essence.key) ≡ false) × (is_set (kind_of three_entries.key) ≡ false)
        × (is_set (kind_of (pack Header (numbers 0 0 0 0 0 0 0)).key) ≡ false) }
    ensures set_kinds { (k : Kind) → (is_set k ≡ true) ↔ IsSetKind k }
    ensures fills { (k : Kind) → (is_fill k ≡ true) ↔ (k ≡ kinds.Fill) }
    ensures primers { (k : Kind) → (is_primer k ≡ true) ↔ (k ≡ kinds.Primer) }
    ensures prefaces { (k : Kind) → (is_preface k ≡ true) ↔ (k ≡ kinds.Preface) }
    ensures segments { (k : Kind) → (is_segment k ≡ true) ↔ (k ≡ kinds.Segment) }
    ensures random_index_packs { (k : Kind) → (is_rip k ≡ true) ↔ (k ≡ kinds.Rip) }
    ensures sizes { (stream_offset (constant_units 0 100) 10 ≡ Some 2500000)
        × (stream_offset (constant_units 0 100) 99 ≡ Some 24750000) × (stream_offset (constant_units 0 100) 100
        ≡ None) }
    ensures endless_sizes { (stream_offset (constant_units 5 0) 4 ≡ None)
        × (stream_offset (constant_units 5 0) 1000 ≡ Some 250000000) }
    ensures entries { (stream_offset (entry_units 3) 4 ≡ None) × (stream_offset (entry_units 3) 5 ≡ Some 1000)
        × (stream_offset (entry_units 3) 6 ≡ Some 1500) × (stream_offset (entry_units 3) 7 ≡ None) }
    ensures fewer_units { (stream_offset (entry_units 1) 5 ≡ Some 1000) × (stream_offset (entry_units 1) 6 ≡ None)
        × (stream_offset (entry_units 0) 5 ≡ None) }
    ensures slices { (stream_offset (sliced_units 2 1) 3 ≡ Some 258) × (stream_offset (sliced_units 2 1) 4 ≡ Some 772)
        × (stream_offset (sliced_units 1 2) 4 ≡ Some 772) }
    ensures sliced_places { (place_read 1 0 (segments_read 0 (sliced_segment ∷ [])) ≡ places.At 2 258)
        × (place_read 1 1 (segments_read 0 (sliced_segment ∷ [])) ≡ places.At 2 772) }
{}
