//! Tables of names with a row for each number.
ghost use Rattle.std.specs.Prelude.{◌≡◌, ◌+◌, ◌≤◌, ◌++◌, IfSome, get_or, length, option_map};
ghost use Rattle.dw_names.specs.Named.{named_or_hex};
ghost use Rattle.dw_names.specs.Rows.{AreRows, name_in, row_name};
ghost use Rattle.dw_text.specs.Added.{labelled};

use dw_text::LineBuffer;

/// A name at the end of thirty-two bytes, the first of which is its length. So a name is put into a line by a
/// copy of a fixed length.
pub(crate) type Row = [u8; 32];

/// The row of a number that has no name.
pub(crate) const UNNAMED: Row = [0; 32];

/// The name in a row.
#[inline(always)]
#[tactic(auto, unfolding(crate::specs::Rows::row_name))]
fn row_name(row: &'static Row) -> Option<&'static [u8]>
    requires { get_or row.now 0 0 ≤ 31 }
    ensures name { option_map (λ name. name.now) result ≡ row_name row.now }
    ensures size { IfSome result (λ name. length name.now ≤ 32) }
{
    let count = row[0] as usize;
    if count == 0 {
        return None;
    }
    Some(&row[32 - count..])
}

/// The name in the row of a number.
#[inline(always)]
#[tactic(auto, unfolding(crate::specs::Rows::name_in))]
pub(crate) fn name_in(rows: &'static [Row], number: u64) -> Option<&'static [u8]>
    requires { AreRows rows.now }
    ensures name { option_map (λ name. name.now) result ≡ name_in rows.now number }
    ensures size { IfSome result (λ name. length name.now ≤ 32) }
{
    if number >= rows.len() as u64 {
        return None;
    }
    row_name(&rows[number as usize])
}

/// Puts the name in a row before what stands, or `0x` and the number's hexadecimal digits where there is none.
#[inline(always)]
#[tactic(auto, unfolding(crate::specs::Rows::row_name, crate::specs::Named::named_or_hex))]
fn prepend_row(line: &mut LineBuffer, row: &'static Row, number: u64)
    requires row { get_or row.now 0 0 ≤ 31 }
    requires room { length line.old + 32 ≤ 256 }
    ensures text { line.new ≡ named_or_hex (row_name row.now) number ++ line.old }
    ensures size { length line.new ≤ length line.old + 32 }
{
    let count = row[0] as usize;
    if count == 0 {
        line.prepend_hex_after(b"0x", number);
        return;
    }
    line.prepend_last(row, count);
}

/// Puts the name of a number before what stands, or `0x` and the number's hexadecimal digits where there is none.
#[inline(always)]
#[tactic(auto, unfolding(crate::specs::Rows::name_in, crate::specs::Named::named_or_hex))]
fn prepend_name(line: &mut LineBuffer, rows: &'static [Row], number: u64)
    requires rows { AreRows rows.now }
    requires room { length line.old + 32 ≤ 256 }
    ensures text { line.new ≡ named_or_hex (name_in rows.now number) number ++ line.old }
    ensures size { length line.new ≤ length line.old + 32 }
{
    if number >= rows.len() as u64 {
        line.prepend_hex_after(b"0x", number);
        return;
    }
    prepend_row(line, &rows[number as usize], number);
}

/// Puts a word and the name of a number before what stands, or `0x` and the number's hexadecimal digits where there is none.
#[inline(always)]
#[tactic(auto, unfolding(dw_text::specs::Added::labelled))]
pub(crate) fn prepend_name_after(
    line: &mut LineBuffer,
    word: &[u8],
    rows: &'static [Row],
    number: u64,
)
    requires rows { AreRows rows.now }
    requires room { length line.old + length word.now + 32 ≤ 256 }
    ensures text { line.new ≡ labelled word.now (named_or_hex (name_in rows.now number) number)
        ++ line.old }
    ensures size { length line.new ≤ length line.old + length word.now + 32 }
{
    prepend_name(line, rows, number);
    line.prepend_text(word);
}
