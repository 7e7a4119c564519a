//! The names of operational patterns (ST 377-1, operational pattern labels).
ghost use Rattle.std.specs.Prelude.{◌≡◌};
ghost use Rattle.std.specs.Option.{option_map};
ghost use Rattle.mxf_sets.specs.Pattern.{is_pattern, name_of, pattern_name};

/// Bytes 1 to 7 of the label of an operational pattern.
const LABEL_START: [u8; 7] = [0x06, 0x0E, 0x2B, 0x34, 0x04, 0x01, 0x01];

/// Bytes 9 to 12 of the label of an operational pattern.
const OPERATIONAL_PATTERN: [u8; 4] = [0x0D, 0x01, 0x02, 0x01];

fn is_pattern(label: &[u8; 16]) -> bool
    ensures { result ≡ is_pattern label.now }
{
    label[..7] == LABEL_START[..] && label[8..12] == OPERATIONAL_PATTERN[..] && label[15] == 0
}

/// The name by the item complexity and the package complexity.
fn name_of(items: u8, packages: u8) -> Option<&'static str>
    ensures { option_map (λ v. v.now) result ≡ name_of items packages }
{
    match (items, packages) {
        (1, 1) => Some("OP1a"),
        (1, 2) => Some("OP1b"),
        (1, 3) => Some("OP1c"),
        (2, 1) => Some("OP2a"),
        (2, 2) => Some("OP2b"),
        (2, 3) => Some("OP2c"),
        (3, 1) => Some("OP3a"),
        (3, 2) => Some("OP3b"),
        (3, 3) => Some("OP3c"),
        _ => None,
    }
}

/// The name of an operational pattern, `OP1a` to `OP3c`, by its label. None for any other label, and for that of a
/// specialized pattern. The version, byte 8, and the qualifier, byte 15, decide nothing.
pub fn pattern_name(label: &[u8; 16]) -> Option<&'static str>
    ensures { option_map (λ v. v.now) result ≡ pattern_name label.now }
{
    if !is_pattern(label) {
        return None;
    }
    name_of(label[12], label[13])
}
