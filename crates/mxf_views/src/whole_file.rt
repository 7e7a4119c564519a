//! What stands of a whole file, and of a run.
ghost use Rattle.std.specs.Prelude.{◌≡◌, ℕ, List, []};
ghost use Rattle.mxf_klv.specs.Parts.{NoteParts, PacketParts};
ghost use Rattle.mxf_klv.specs.PieceReading.{packets_in, rest_in};
ghost use Rattle.mxf_views.specs.WellFormed.{IsWellFormed, file_bytes};
ghost use Rattle.mxf_views.specs.WholeFile.{AreNotesOf, HasCopiesOf, HasIndexOf, HasPartitionsOf, HasRandomIndexOf};

use mxf_klv::laws::{each_piece_is_read_one_way, packets_are_read_as_written};

/// A law of [`Views`](crate::Views): if a content is the notes of a well-formed file, there is no dispute and no gap,
/// and the partitions, the link of each and their chain are those of the reading from the front.
pub fn whole_files_have_their_partitions()
    ensures { (notes : List NoteParts) (l : List PacketParts) → IsWellFormed l → AreNotesOf notes l
        → HasPartitionsOf notes l }
{}

/// A law of [`Views`](crate::Views): if a content is the notes of a well-formed file, the copies of the header
/// metadata, the sets of each and the preferred copy are those of the reading from the front.
pub fn whole_files_have_their_copies()
    ensures { (notes : List NoteParts) (l : List PacketParts) → IsWellFormed l → AreNotesOf notes l
        → HasCopiesOf notes l }
{}

/// A law of [`Views`](crate::Views): if a content is the notes of a well-formed file, the index table segments and the
/// place of each edit unit are those of the reading from the front.
pub fn whole_files_have_their_index()
    ensures { (notes : List NoteParts) (l : List PacketParts) → IsWellFormed l → AreNotesOf notes l
        → HasIndexOf notes l }
{}

/// A law of [`Views`](crate::Views): if a content is the notes of a well-formed file, what is known of the random index
/// pack is what the reading from the front says.
pub fn whole_files_have_their_random_index()
    ensures { (notes : List NoteParts) (l : List PacketParts) → IsWellFormed l → AreNotesOf notes l
        → HasRandomIndexOf notes l }
{}

/// A law: the bytes of a well-formed file, read at offset 0, are its packets, and nothing is left.
pub fn well_formed_files_are_read_whole()
    ensures packets { (l : List PacketParts) → IsWellFormed l → packets_in 0 (file_bytes l) ≡ l }
    ensures rest { (l : List PacketParts) → IsWellFormed l → rest_in 0 (file_bytes l) ≡ [] }
{
    each_piece_is_read_one_way();
    packets_are_read_as_written();
}
