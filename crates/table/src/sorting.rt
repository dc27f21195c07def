// The no-repeat test. Few rows are compared each with all behind it. The numbers of many rows are sorted by the rows, and then each row
// has to come before the next one in a strict order. That last step alone decides, and it is proved to: of the sort nothing is promised
// but that it ends, and where it had not sorted, the rows would be compared each with all behind it. `distinct` alone calls this.
// Numbers are sorted and not the rows, since the table is lent only to be read, and there is no heap for a copy.
ghost use Rattle.std.specs.Prelude.{◌≡◌, true, false, ◌+◌, ◌*◌, ◌<◌, ◌≤◌, length};
ghost use Rattle.text.specs.Text.{same as same_text};
ghost use Rattle.table.specs.Table.{distinct as distinct_rows};
ghost use Rattle.table.specs.Bytes as bytes;

use crate::present;
use crate::words::{before, same_row};

// So many rows are sorted in small arrays. More of them, as many as a table of a store has at most (document 01, Store), are sorted in
// large ones, which take longer to clear than a few rows to sort.
pub(crate) const FEW: usize = 64;

pub(crate) const MANY: usize = 4096;

// Each row with all behind it: a loop, which shortens `rest` with each row and so knows what is behind it.
pub(crate) fn pairwise(table: &[u8], size: usize, used: usize) -> bool
    ensures { result ≡ distinct_rows same_text (bytes.rows size used table.now) }
{
    let mut rest = table;
    for i in 0..used {
        let Some((row, behind)) = rest.split_at_checked(size) else {
            return true;
        };
        if present(behind, used - i - 1, row) {
            return false;
        }
        rest = behind;
    }
    true
}

// The used rows of a table that has them all.
#[derive(Clone, Copy)]
pub(crate) struct Rows<'a> {
    pub(crate) table: &'a [u8],
    pub(crate) size: usize,
    pub(crate) used: usize,
    ghost fits: { used * size ≤ length table.now },
}

impl Rows<'_> {
    ghost use Rattle.table.specs.Order as spec;

    // The used row of a number, without a division to see that it is there.
    fn row(&self, i: usize) -> &[u8]
        requires { i < self.now.used }
        ensures { result.now ≡ spec.row self.now.size i self.now.table.now }
    {
        let at = i * self.size;
        &self.table[at..at + self.size]
    }

    // Are both used rows, and does the first come before the second?
    fn before(&self, i: u16, j: u16) -> bool
        ensures { result ≡ true → (i < self.now.used) × ((j < self.now.used) × spec.Before (spec.row self.now.size i self.now.table.now) (spec.row self.now.size j self.now.table.now)) }
    {
        let i = i as usize;
        let j = j as usize;
        i < self.used && j < self.used && before(self.row(i), self.row(j))
    }

    // Are these two used rows, and equal?
    #[tactic(auto, using(crate::proofs::OrderLaws::row_again))]
    fn again(&self, i: u16, j: u16) -> bool
        ensures { result ≡ true → distinct_rows same_text (bytes.rows self.now.size self.now.used self.now.table.now) ≡ false }
    {
        let i = i as usize;
        let j = j as usize;
        i != j && i < self.used && j < self.used && same_row(self.row(i), self.row(j))
    }

    // As many rows as there are used ones, each one of these and before the next: no two are equal. Not `is_sorted_by`, which doesn't say
    // between which two it failed: these may be equal.
    fn ascending(&self, order: &[u16]) -> bool
        requires some { 2 ≤ self.now.used }
        requires used_in_bounds { self.now.used ≤ length order.now }
        ensures { result ≡ distinct_rows same_text (bytes.rows self.now.size self.now.used self.now.table.now) }
    {
        for i in 1..self.used {
            let a = order[i - 1];
            let b = order[i];
            if !self.before(a, b) {
                return !self.again(a, b) && pairwise(self.table, self.size, self.used);
            }
        }
        true
    }

    // Merges two runs.
    fn merge(&self, left: &[u16], right: &[u16], to: &mut [u16])
        requires { length to.old ≡ length left.now + length right.now }
    {
        let mut i = 0;
        let mut j = 0;
        for k in 0..to.len() {
            if i == left.len() || (j < right.len() && self.before(right[j], left[i])) {
                to[k] = right[j];
                j += 1;
            } else {
                to[k] = left[i];
                i += 1;
            }
        }
    }

    // Merges the runs of a width two by two.
    fn merge_runs(&self, from: &[u16], to: &mut [u16], width: usize)
        requires { (0 < width) × (width ≤ 8192) }
    {
        // A copy, whose parts stand in registers.
        let rows = *self;
        for (from, to) in from.chunks(2 * width).zip(to.chunks_mut(2 * width)) {
            if from.len() == to.len() {
                let (left, right) = from.split_at(width.min(from.len()));
                rows.merge(left, right, to);
            }
        }
    }

    // The test by sorting, in arrays that have room for the numbers. (The library's sort takes 1.3 to 1.6 times the instructions of these
    // runs of one number that are merged two by two until there is one run.)
    pub(crate) fn sorted<const N: usize>(&self) -> bool
        requires some { 2 ≤ self.now.used }
        requires room { (self.now.used ≤ N) × (N ≤ 4096) }
        ensures { result ≡ distinct_rows same_text (bytes.rows self.now.size self.now.used self.now.table.now) }
    {
        let mut order = [0u16; N];
        let mut merged = [0u16; N];
        let order = &mut order[..self.used];
        let merged = &mut merged[..self.used];
        for (i, n) in order.iter_mut().enumerate() {
            *n = i as u16;
        }
        // No count: the width of the runs grows fourfold.
        let mut width = 1;
        while width < self.used {
            self.merge_runs(order, merged, width);
            self.merge_runs(merged, order, 2 * width);
            width *= 4;
        }
        self.ascending(order)
    }
}
