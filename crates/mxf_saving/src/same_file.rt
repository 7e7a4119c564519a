//! Whether two paths lead to one file.
use std::fs::Metadata;
use std::os::unix::fs::MetadataExt;

/// Whether both are of one file, by whatever names: by its device and its number there.
pub fn is_same_file(a: &Metadata, b: &Metadata) -> bool {
    a.dev() == b.dev() && a.ino() == b.ino()
}
