// The rows of a store, written to a buffer and read from their bytes (document 01, Store).
ghost use Rattle.std.specs.Prelude.{◌≡◌, ◌<◌, length, take, drop};
ghost use Rattle.text.specs.Text.{pasted};
ghost use Rattle.table.specs.Bytes.{u16};
ghost use Rattle.rule.specs.Limits.{text_limit, id_limit};
ghost use Rattle.store.specs.Layout as spec;

use crate::Counts;
use rule::{ID, TEXT};
use table::{number_at, put_number};
use text::front;

// The bytes of the row from `at` on.
pub(crate) fn behind(row: &[u8], at: usize) -> &[u8]
    ensures { result.now ≡ drop at row.now }
{
    &row[at.min(row.len())..]
}

// The field of `width` bytes from `at` on, as far as the row has it.
pub(crate) fn field(row: &[u8], at: usize, width: usize) -> &[u8]
    ensures { result.now ≡ take width (drop at row.now) }
{
    front(behind(row, at), width)
}

// A filter row's text.
#[tactic(auto, unfolding(crate::specs::Layout::filter_text, crate::specs::Layout::field))]
pub fn filter_text(row: &[u8]) -> &[u8]
    ensures { result.now ≡ spec.filter_text row.now }
{
    front(field(row, 6, TEXT), number_at(row, 2))
}

// A filter row's owner.
#[tactic(auto, unfolding(crate::specs::Layout::filter_owner, crate::specs::Layout::field))]
pub fn filter_owner(row: &[u8]) -> &[u8]
    ensures { result.now ≡ spec.filter_owner row.now }
{
    front(field(row, 6 + TEXT, ID), number_at(row, 4))
}

// The text of an eq or note row.
#[tactic(auto, unfolding(crate::specs::Layout::numbered_text, crate::specs::Layout::field))]
pub fn numbered_text(row: &[u8]) -> &[u8]
    ensures { result.now ≡ spec.numbered_text row.now }
{
    front(field(row, 4, TEXT), number_at(row, 2))
}

// Writes a text, cut to its field's `width`, into a row: its length to `head`, its bytes to `at`.
fn put_field(row: &mut [u8], head: usize, at: usize, width: usize, text: &[u8])
    requires { width < 65536 }
    ensures { row.new ≡ pasted at (take width text.now) (pasted head (u16 (length (take width text.now))) row.old) }
{
    let text = front(text, width);
    put_number(row, head, text.len() as u16);
    text::paste(text, row, at);
}

// Writes a filter row to a buffer of its size, each text cut to its field. A buffer of another size is unchanged.
pub fn put_filter(row: &mut [u8], rule: u16, text: &[u8], owner: &[u8])
    ensures { row.new ≡ spec.put_row spec.filter_codec (record { rule = rule; text = take text_limit text.now; owner = take id_limit owner.now }) row.old }
{
    if row.len() != Counts::FILTER {
        return;
    }
    row.fill(0);
    put_number(row, 0, rule);
    put_field(row, 2, 6, TEXT, text);
    put_field(row, 4, 6 + TEXT, ID, owner);
}

// Writes an eq row with its rule, or a note row with its session, to a buffer of its size, the text cut to its field. A buffer of another
// size is unchanged. Beside `put_filter`: one function for both would take the size, the places and an owner that may be absent.
pub fn put_numbered(row: &mut [u8], n: u16, text: &[u8])
    ensures { row.new ≡ spec.put_row spec.eq_codec (record { rule = n; text = take text_limit text.now }) row.old }
{
    if row.len() != Counts::EQ {
        return;
    }
    row.fill(0);
    put_number(row, 0, n);
    put_field(row, 2, 4, TEXT, text);
}
