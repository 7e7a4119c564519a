//! What a new catalogue takes over of the file that it replaces.
ghost use Rattle.std.specs.Prelude.{◌≡◌, if◌then◌else◌, bit_and};
ghost use Rattle.std.specs.Fs.{permissions_mode};

use std::fs::{Metadata, Permissions};
use std::os::unix::fs::{MetadataExt, PermissionsExt};

/// The bits by which a program runs with the rights of its file's owner or group.
const SET_ID_BITS: u32 = 0o6000;

/// The permissions of the file before, for the new one. Set-id bits are for the owner and the group that gave them, so
/// a file of others has none.
pub fn permissions_of(before: &Metadata, new: &Metadata) -> Permissions {
    let is_of_same_owner = before.uid() == new.uid() && before.gid() == new.gid();
    permissions_for(before.permissions(), is_of_same_owner)
}

/// The permissions, without set-id bits for a file of others.
fn permissions_for(before: Permissions, is_of_same_owner: bool) -> Permissions
    ensures { permissions_mode result ≡ (if is_of_same_owner then permissions_mode before else bit_and
        (permissions_mode before) 0xffff_f3ff) }
{
    if is_of_same_owner {
        before
    } else {
        Permissions::from_mode(before.mode() & !SET_ID_BITS)
    }
}
