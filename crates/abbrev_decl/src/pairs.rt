//! The pairs of a declaration: which attributes an entry has, and in which forms.

ghost use Rattle.std.specs.Prelude.{◌≡◌, ◌≤◌, ◌+◌, length, IfOk, IfSome};
ghost use Rattle.dw_fields.specs.Reading.{uleb_at};
ghost use Rattle.abbrev_decl.specs.Pairs.{EndAtFirstZeroPair, GivesPair, PairsWereRead, Skips, from, implicit_at, in_table, pair_at, pairs_at, pairs_of, short_pair as pair_of_bytes};

use dw_fields::{Code, Cut, Fault, Order, renamed};
use dw_numbers::form;

/// One pair of a declaration: an attribute and the form of its value.
///
/// `implicit` is the value itself where the form is implicit_const, and 0 in any other form.
#[derive(Clone, Copy, Debug, PartialEq, Eq)]
pub struct AttrSpec {
    /// The attribute's number.
    pub name: u64,
    /// The form's number. It is not judged here.
    pub form: u64,
    /// The number of implicit_const.
    pub implicit: i64,
}

/// The bytes of a section from a place to the section's end. LEB128 and single bytes have no byte
/// order.
#[inline]
pub(crate) fn whole(section: &[u8], place: u64) -> Cut<'_>
    requires { place ≤ length section.now }
    ensures { result ≡ from section.entry.now place }
{
    Cut::new(section, place, section.len() as u64, Order::Little)
}

/// A field that passes the section's end is refused as a truncated declaration, any other with its
/// own cause.
#[inline]
pub(crate) fn in_table<T>(read: Result<T, Fault>) -> Result<T, Fault>
    ensures { result ≡ in_table read }
{
    renamed(read, Code::Truncated, Code::DeclTruncated)
}

/// A ULEB128 number of one byte or two, and the place behind it; `None` where it may be longer.
#[inline(always)]
fn short_number(section: &[u8], place: u64) -> Option<(u64, u64)>
    requires { place ≤ length section.now }
    ensures { IfSome result (λ read.
        (uleb_at (from section.now place) ≡ Ok read)
        × (place + 1 ≤ read.1) × (read.1 ≤ length section.now)) }
{
    match &section[place as usize..] {
        [first, second, ..] => {
            if *first < 128 {
                Some((u64::from(*first), place + 1))
            } else if *second < 128 {
                Some((
                    u64::from(*first % 128) + 128 * u64::from(*second),
                    place + 2,
                ))
            } else {
                None
            }
        }
        _ => None,
    }
}

/// A ULEB128 number of any length at a place, and the place behind it.
fn read_long_number(section: &[u8], place: u64) -> Result<(u64, u64), Fault>
    requires { place ≤ length section.now }
    ensures answer { result ≡ in_table (uleb_at (from section.now place)) }
    ensures inside { IfOk result (λ read. (place + 1 ≤ read.1) × (read.1 ≤ length section.now)) }
{
    let mut cut = whole(section, place);
    let number = in_table(cut.uleb())?;
    Ok((number, cut.place()))
}

/// A ULEB128 number at a place, and the place behind it.
#[inline(always)]
pub(crate) fn read_number(section: &[u8], place: u64) -> Result<(u64, u64), Fault>
    requires { place ≤ length section.now }
    ensures answer { result ≡ in_table (uleb_at (from section.now place)) }
    ensures inside { IfOk result (λ read. (place + 1 ≤ read.1) × (read.1 ≤ length section.now)) }
{
    match short_number(section, place) {
        Some(read) => Ok(read),
        None => read_long_number(section, place),
    }
}

/// The number behind a form and the place behind it: that of implicit_const, and 0 of any other
/// form, which has none.
#[inline]
#[tactic(auto, unfolding(crate::specs::Pairs::implicit_at))]
fn read_implicit(section: &[u8], place: u64, form: u64) -> Result<(i64, u64), Fault>
    requires { place ≤ length section.now }
    ensures answer { result ≡ implicit_at form (from section.now place) }
    ensures inside { IfOk result (λ read. (place ≤ read.1) × (read.1 ≤ length section.now)) }
{
    if form != form::IMPLICIT_CONST {
        return Ok((0, place));
    }
    let mut cut = whole(section, place);
    let implicit = in_table(cut.sleb())?;
    Ok((implicit, cut.place()))
}

/// The pair at a place and the place behind it, number by number.
#[inline(always)]
#[tactic(auto, unfolding(crate::specs::Pairs::pair_at))]
fn read_long_pair(section: &[u8], place: u64) -> Result<(Option<AttrSpec>, u64), Fault>
    requires { place ≤ length section.now }
    ensures answer { result ≡ pair_at (from section.now place) }
    ensures inside { IfOk result (λ r. (place + 2 ≤ r.1) × (r.1 ≤ length section.now)) }
{
    let (name, behind) = read_number(section, place)?;
    let (form, end) = read_number(section, behind)?;
    if name == 0 && form == 0 {
        return Ok((None, end));
    }
    let (implicit, end) = read_implicit(section, end, form)?;
    Ok((
        Some(AttrSpec {
            name,
            form,
            implicit,
        }),
        end,
    ))
}

/// The name and the form of a pair of two bytes: each number has one, and none stands behind them.
#[inline(always)]
fn short_pair(section: &[u8], place: u64) -> Option<(u8, u8)>
    requires { place ≤ length section.now }
    ensures { IfSome result (λ pair.
        (pair_at (from section.now place) ≡ Ok (pair_of_bytes pair.0 pair.1, place + 2))
        × (place + 2 ≤ length section.now)) }
{
    match &section[place as usize..] {
        [name, form, ..] => {
            if *name < 128 && *form < 128 && u64::from(*form) != form::IMPLICIT_CONST {
                Some((*name, *form))
            } else {
                None
            }
        }
        _ => None,
    }
}

/// The pair at a place and the place behind it; `None` is the pair 0, 0.
#[inline(always)]
pub(crate) fn read_pair(section: &[u8], place: u64) -> Result<(Option<AttrSpec>, u64), Fault>
    requires { place ≤ length section.now }
    ensures answer { result ≡ pair_at (from section.now place) }
    ensures inside { IfOk result (λ r. (place + 2 ≤ r.1) × (r.1 ≤ length section.now)) }
{
    match short_pair(section, place) {
        Some((0, 0)) => Ok((None, place + 2)),
        Some((name, form)) => Ok((
            Some(AttrSpec {
                name: u64::from(name),
                form: u64::from(form),
                implicit: 0,
            }),
            place + 2,
        )),
        None => read_long_pair(section, place),
    }
}

/// The first of the pairs that begin at `place` and were read before, and the place behind it; `None`
/// where none is left.
#[inline(never)]
pub(crate) fn next_pair(section: &[u8], place: u64) -> Option<(AttrSpec, u64)>
    requires { PairsWereRead section.now place }
    ensures { GivesPair result section.now (pairs_of (pairs_at section.now place)) }
{
    match read_pair(section, place) {
        Ok((Some(pair), next)) => Some((pair, next)),
        Ok((None, _)) => None,
        // They were read before.
        Err(_) => None,
    }
}

/// The place behind a declaration's pairs, which begin at `start`.
pub(crate) fn skip_pairs(section: &[u8], start: u64) -> Result<u64, Fault>
    requires { start ≤ length section.now }
    ensures answer { Skips result (pairs_at section.now start) }
    ensures inside { IfOk result (λ next. (start + 2 ≤ next) × (next ≤ length section.now)) }
{
    let mut place = start;
    'pairs: loop {
        match read_pair(section, place) {
            Ok((Some(_), next)) => place = next,
            Ok((None, next)) => return Ok(next),
            Err(fault) => return Err(fault),
        }
    }
}

/// How many pairs a declaration has, which begin at `start` and were read before.
pub(crate) fn count_pairs(section: &[u8], start: u64) -> usize
    requires { PairsWereRead section.now start }
    ensures { result ≡ length (pairs_of (pairs_at section.now start)) }
{
    let mut place = start;
    let mut count = 0;
    'pairs: loop {
        match read_pair(section, place) {
            Ok((Some(_), next)) => {
                place = next;
                count += 1;
            }
            Ok((None, _)) => return count,
            Err(_) => unreachable!(),
        }
    }
}

/// The pairs of a declaration are those up to the first pair 0, 0. A pair with one zero is one of
/// them.
///
/// This is a law, for proofs; the call does nothing.
pub fn pairs_end_at_first_zero_pair(section: &[u8], place: u64)
    ensures { EndAtFirstZeroPair section.now place (pairs_at section.now place) }
{}
