//! The groups of LEB128 numbers (DWARF 5 section 7.6).

ghost use Rattle.std.specs.Prelude.{◌≡◌, ◌<◌, length, All, IfSome};
ghost use Rattle.dw_fields.specs.Leb.{last_group as last_group_of, signed_group as signed_group_of, signed_of, unsigned_of};

/// The index of the first byte with a clear top bit, which ends the number.
#[inline]
#[tactic(auto, unfolding(crate::specs::Leb::last_group))]
pub(crate) fn last_group(bytes: &[u8]) -> Option<usize>
    ensures place { result ≡ last_group_of bytes.now }
    ensures within { IfSome result (λ n. n < length bytes.now) }
    ensures fits { All (λ b. b < 256) bytes.now }
{
    match bytes {
        [first, ..] if *first < 128 => Some(0),
        _ => later_group(bytes),
    }
}

#[tactic(auto, unfolding(crate::specs::Leb::last_group))]
fn later_group(bytes: &[u8]) -> Option<usize>
    ensures place { result ≡ last_group_of bytes.now }
    ensures within { IfSome result (λ n. n < length bytes.now) }
    ensures fits { All (λ b. b < 256) bytes.now }
{
    bytes.iter().position(|byte| *byte < 128)
}

/// The unsigned number of these groups, if 64 bits hold it.
#[inline]
pub(crate) fn unsigned_value(groups: &[u8]) -> Option<u64>
    ensures { result ≡ unsigned_of groups.now }
{
    match groups {
        [only] => Some(u64::from(*only % 128)),
        _ => long_unsigned_value(groups),
    }
}

fn long_unsigned_value(groups: &[u8]) -> Option<u64>
    ensures { result ≡ unsigned_of groups.now }
{
    let mut value: u64 = 0;
    let mut left = groups.len();
    'groups: while left > 0 {
        left -= 1;
        if value > u64::MAX / 128 {
            return None;
        }
        value = value * 128 + u64::from(groups[left] % 128);
    }
    Some(value)
}

/// The signed number of these groups, if 64 bits hold it.
#[inline]
pub(crate) fn signed_value(groups: &[u8]) -> Option<i64>
    requires { 0 < length groups.now }
    ensures { result ≡ signed_of groups.now }
{
    match groups {
        [only] => Some(signed_group(*only % 128)),
        _ => long_signed_value(groups),
    }
}

#[inline]
fn signed_group(group: u8) -> i64
    requires { group < 128 }
    ensures { result ≡ signed_group_of group }
{
    if group < 64 {
        i64::from(group)
    } else {
        i64::from(group) - 128
    }
}

fn long_signed_value(groups: &[u8]) -> Option<i64>
    requires { 0 < length groups.now }
    ensures { result ≡ signed_of groups.now }
{
    let mut left = groups.len() - 1;
    let mut value = signed_group(groups[left] % 128);
    'groups: while left > 0 {
        left -= 1;
        if value >= 72_057_594_037_927_936 || value < -72_057_594_037_927_936 {
            return None;
        }
        value = value * 128 + i64::from(groups[left] % 128);
    }
    Some(value)
}
