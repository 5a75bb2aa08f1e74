//! The making of the two tables of a set.

ghost use Rattle.std.specs.Prelude.{◌≡◌, ℕ, ◌+◌, ◌*◌, ◌<◌, ◌≤◌, slice_index};
ghost use Rattle.std.specs.Option.{IfSome};
ghost use Rattle.byte_set.specs.Sets.{IsOnly};
ghost use Rattle.byte_set.specs.Tables.{IsEntry};

/// Returns the table of 128 bytes.
///
/// - `first` is the first of these bytes.
pub(crate) fn table(members: &[bool; 256], first: usize) -> [u8; 16]
    requires { first + 128 ≤ 256 }
    ensures { (l : ℕ) → l < 16 → IsEntry members.now (first + l) (slice_index result l) }
{
    let mut table = [0; 16];
    for low in 0..16 {
        table[low] = entry(members, first + low);
    }
    table
}

/// Returns the entry of eight bytes, each 16 above the one before.
///
/// - `first` is the first of these bytes.
fn entry(members: &[bool; 256], first: usize) -> u8
    requires { first + 112 < 256 }
    ensures { IsEntry members.now first result }
{
    let mut entry = 0;
    for high in 0..8 {
        if members[first + 16 * high] {
            entry |= 1 << high;
        }
    }
    entry
}

/// Returns the byte that has a flag if there is exactly one, and else `None`.
pub(crate) fn only_member(members: &[bool; 256]) -> Option<u8>
    ensures { IfSome result (IsOnly members.now) }
{
    let mut only = None;
    for byte in 0..=u8::MAX {
        if members[usize::from(byte)] {
            if only.is_some() {
                return None;
            }
            only = Some(byte);
        }
    }
    only
}
