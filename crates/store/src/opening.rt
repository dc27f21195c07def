// Opening a store (document 01, Refusals by operation, Open). The four counts come one by one, as the C interface hands them over: a `Counts` has
// none that is out of its bounds.
ghost use Rattle.std.specs.Prelude.{◌≡◌, ◌≤◌, length, replicate};
ghost use Rattle.std.specs.Option.{option_map};
ghost use Rattle.store.specs.Store as store_spec;
ghost use Rattle.store.specs.Layout as layout;
ghost use Rattle.store.specs.Opening as spec;

use crate::Counts;
use rule::read::check_text;
use rule::{Fault, Refusal};
use table::put_number;

// All bytes of a store are zero, each table's written through its own stretch.
#[tactic(auto, unfolding(crate::specs::Store::store_length, crate::specs::Layout::filters_at, crate::specs::Layout::eqs_at, crate::specs::Layout::notes_at))]
fn clear_store(store: &mut [u8], counts: Counts)
    requires { length store.old ≡ store_spec.store_length counts }
    ensures { store.new ≡ replicate (store_spec.store_length counts) 0 }
{
    let filters_at = counts.filters_at();
    let eqs_at = counts.eqs_at();
    let notes_at = counts.notes_at();
    store[..filters_at].fill(0);
    store[filters_at..eqs_at].fill(0);
    store[eqs_at..notes_at].fill(0);
    store[notes_at..].fill(0);
}

// Writes a store without used rows.
fn write_open(store: &mut [u8], counts: Counts, text: &[u8])
    requires store_len { length store.old ≡ store_spec.store_length counts }
    requires text_len_bound { length text.now ≤ counts.bytes }
    ensures { store.new ≡ layout.layout (spec.opened counts text.now) }
{
    clear_store(store, counts);
    put_number(store, 0, counts.bytes);
    put_number(store, 2, counts.filters);
    put_number(store, 4, counts.eqs);
    put_number(store, 6, counts.notes);
    put_number(store, 8, text.len() as u16);
    text::paste(text, store, Counts::HEADER);
}

// Opens a store for a rule text: 4 counts or length; 1 the text over R, or over 256 lines; the first faulty line. Refused, the store is
// unchanged.
pub fn open(
    store: &mut [u8],
    bytes: u64,
    filters: u64,
    eqs: u64,
    notes: u64,
    text: &[u8],
) -> Result<(), Fault>
    ensures result_value { spec.says result ≡ option_map spec.told (spec.open_fault (record { bytes = bytes; filters = filters; eqs = eqs; notes = notes }) text.now (length store.old)) }
    ensures store_after { store.new ≡ spec.after_open (record { bytes = bytes; filters = filters; eqs = eqs; notes = notes }) text.now store.old }
{
    let miscounted = Fault {
        cause: Refusal::Counts,
        line: 0,
    };
    let counts = Counts::new(bytes, filters, eqs, notes).ok_or(miscounted)?;
    if store.len() != counts.length() {
        return Err(miscounted);
    }
    if (counts.bytes as usize) < text.len() {
        return Err(Fault {
            cause: Refusal::TooLong,
            line: 0,
        });
    }
    check_text(text)?;
    write_open(store, counts, text);
    Ok(())
}
