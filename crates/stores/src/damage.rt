// Damages one byte of each kind of a store with rows and sees that it is no longer as laid out (document 01, 3: "counts, padding, lengths,
// rule text, row rule numbers, note sessions over 255, filter validity, equal rows"), and as laid out again with the byte put back.
use crate::tally::Tally;
use store::check::check;
use store::opening::open;
use store::rows::{put_filter, put_numbered};
use table::{push, put_number};
use text::front;

// R 64; F, E, N 3. The rule text is at 16, the filter rows at 80, 406, 732, the eq rows at 1058, 1318, 1578, the note rows at 1838,
// 2098, 2358.
const LENGTH: usize = 2618;

const FILTERS: usize = 80;

const EQS: usize = 1058;

const NOTES: usize = 1838;

// Two lines; the blank at the end is the second's.
const RULES: &[u8] = b"[\"allow\",\"all\",\"all\",[\"a/%c\"]]\n[\"deny\",\"all\"] ";

// A place, the byte that it gets, and what that is.
type Change = (usize, u8, &'static str);

// Changes that document 01 does not rule out. A row of zeros is a used row: number 0, and texts of no bytes; an empty filter is valid.
const ALLOWED: [Change; 14] = [
    (10, 3, "filter rows used, one more: an empty row"),
    (12, 3, "eq rows used, one more: an empty row"),
    (14, 3, "note rows used, one more: an empty row"),
    (80, 1, "filter row, rule number of the last line"),
    (1058, 1, "eq row, rule number of the last line"),
    (1838, 255, "note row, session 255"),
    (82, 4, "filter row, a text with U+0000"),
    (84, 64, "filter row, owner length 64"),
    (86, b'+', "filter row, filter +/1"),
    (88, b'#', "filter row, filter a/#"),
    (1062, b'#', "eq row, text #"),
    (1842, b'#', "note row, text #/1"),
    (343, b'2', "filter row, another owner"),
    (49, b'D', "rule text, a word with a capital"),
];

// Damage to each kind of byte.
const DAMAGE: [Change; 79] = [
    // The counts R and F.
    (0, 65, "R one more"),
    (0, 63, "R one less"),
    (0, 0, "R 0"),
    (1, 1, "R 256 more"),
    (2, 4, "F one more"),
    (2, 2, "F one less"),
    (2, 0, "F 0"),
    // The counts E and N.
    (4, 4, "E one more"),
    (4, 2, "E one less"),
    (4, 0, "E 0"),
    (6, 4, "N one more"),
    (6, 2, "N one less"),
    (6, 0, "N 0"),
    // The length of the rule text.
    (8, 47, "text length one more"),
    (8, 45, "text length one less: a blank behind it"),
    (8, 44, "text length two less: an open bracket"),
    (8, 0, "text length 0"),
    (8, 65, "text length over R"),
    (9, 1, "text length 256 more"),
    // The rule text and its padding.
    (62, 32, "rule text padding, first byte"),
    (79, 1, "rule text padding, last byte"),
    (16, b'{', "rule text, first line not JSON"),
    (46, b' ', "rule text, two rules in a line"),
    (46, b'\r', "rule text, a CR for the LF"),
    (61, b'x', "rule text, last line not JSON"),
    (49, b'x', "rule text, an access that is none"),
    // The numbers of used rows.
    (10, 1, "filter rows used, one less"),
    (10, 0, "filter rows used, none"),
    (10, 4, "filter rows used, over room"),
    (11, 1, "filter rows used, 256 more"),
    (12, 1, "eq rows used, one less"),
    (12, 0, "eq rows used, none"),
    (12, 4, "eq rows used, over room"),
    (13, 1, "eq rows used, 256 more"),
    (14, 1, "note rows used, one less"),
    (14, 0, "note rows used, none"),
    (14, 4, "note rows used, over room"),
    (15, 1, "note rows used, 256 more"),
    // The numbers of a filter row.
    (80, 2, "filter row, rule number of no line"),
    (81, 1, "filter row, rule number 256"),
    (406, 2, "last filter row, rule number of no line"),
    (83, 1, "filter row, text length 259"),
    (82, 2, "filter row, text length one less"),
    (82, 0, "filter row, text length 0"),
    (84, 65, "filter row, owner length 65"),
    (85, 1, "filter row, owner length 258"),
    (84, 1, "filter row, owner length one less"),
    // A filter row's padding and its filter.
    (89, 1, "filter row, text padding, first byte"),
    (341, 1, "filter row, text padding, last byte"),
    (344, 1, "filter row, owner padding, first byte"),
    (405, 1, "filter row, owner padding, last byte"),
    (87, b'#', "filter row, filter a#1"),
    (86, b'#', "filter row, filter #/1"),
    (87, b'+', "filter row, filter a+1"),
    (731, 1, "last filter row, owner padding, last byte"),
    // An eq row.
    (1058, 2, "eq row, rule number of no line"),
    (1059, 1, "eq row, rule number 256"),
    (1318, 2, "last eq row, rule number of no line"),
    (1061, 1, "eq row, length 257"),
    (1060, 0, "eq row, length one less"),
    (1063, 1, "eq row, padding, first byte"),
    (1317, 1, "eq row, padding, last byte"),
    (1577, 1, "last eq row, padding, last byte"),
    // A note row.
    (1839, 1, "note row, session 256"),
    (2099, 1, "last note row, session 256"),
    (1841, 1, "note row, length 259"),
    (1840, 2, "note row, length one less"),
    (1845, 1, "note row, padding, first byte"),
    (2097, 1, "note row, padding, last byte"),
    (2357, 1, "last note row, padding, last byte"),
    // Unused rows, and equal rows.
    (732, 1, "unused filter row, first byte"),
    (1057, 1, "unused filter row, last byte"),
    (1578, 1, "unused eq row, first byte"),
    (1837, 1, "unused eq row, last byte"),
    (2358, 1, "unused note row, first byte"),
    (2617, 1, "unused note row, last byte"),
    (414, b'1', "equal filter rows"),
    (1322, b'1', "equal eq rows"),
    (2104, b'1', "equal note rows"),
];

// Two used rows and a free one in each table. The two differ in the last byte of their texts.
fn fill(store: &mut [u8; LENGTH]) {
    let mut filter = [0; 326];
    let mut row = [0; 260];
    for (used, (name, topic)) in [(b"1", b"a/1"), (b"2", b"a/2")].into_iter().enumerate() {
        put_filter(&mut filter, 0, topic, b"g1");
        push(&mut store[FILTERS..EQS], used, &filter);
        put_numbered(&mut row, 0, name);
        push(&mut store[EQS..NOTES], used, &row);
        put_numbered(&mut row, 0, topic);
        push(&mut store[NOTES..], used, &row);
    }
    for header in [10, 12, 14] {
        put_number(store, header, 2);
    }
}

// Judges stores that are all to be refused, or all to be as laid out. What cannot be written is lost; the run goes on.
#[derive(Drop)]
struct Judge<'a, P: Print> {
    rt: &'a P,
    refused: bool,
    tally: Tally,
}

impl<'a, P: Print> Judge<'a, P> {
    // Before the first case.
    fn new(rt: &'a P, refused: bool) -> Self {
        Judge {
            rt,
            refused,
            tally: Tally::default(),
        }
    }

    // Writes whether the bytes are as laid out, as 0 or 3, and counts it as right where it is as it has to be.
    fn judge(&mut self, name: &str, bytes: &[u8]) {
        let laid = check(bytes);
        let _ = println!(self.rt; "{name}: {}", if laid { 0 } else { 3 });
        self.tally.count(laid != self.refused);
    }

    // Sets a byte, judges the store, and puts the byte back.
    fn change(&mut self, store: &mut [u8; LENGTH], (at, byte, name): Change) {
        if LENGTH <= at {
            let _ = println!(self.rt; "{name}: no such byte");
            self.tally.count(false);
            return;
        }
        let old = store[at];
        store[at] = byte;
        self.judge(name, store);
        store[at] = old;
        if !check(store) {
            let _ = println!(self.rt; "not as laid out with the byte put back");
            self.tally.count(false);
        }
    }
}

// The whole store with a byte less, with a byte 0 more, its header alone, and nothing.
fn lengths(judge: &mut Judge<'_, impl Print>, store: &[u8; LENGTH]) {
    let mut longer = [0; LENGTH + 1];
    text::paste(store, &mut longer, 0);
    judge.judge("the store a byte short", front(store, LENGTH - 1));
    judge.judge("the store a byte long", &longer);
    judge.judge("the header alone", front(store, 16));
    judge.judge("no bytes", b"");
}

// Makes the store, and changes it.
pub(crate) fn damage(rt: &impl Print) {
    let mut store = [255; LENGTH];
    let _ = open(&mut store, 64, 3, 3, 3, RULES);
    fill(&mut store);
    Judge::new(rt, false).judge(
        "A store with two used rows and a free one in each table",
        &store,
    );
    let _ = println!(rt; "Changes that are allowed");
    let mut allowed = Judge::new(rt, false);
    for change in ALLOWED {
        allowed.change(&mut store, change);
    }
    let _ = println!(rt; "{} as laid out", allowed.tally);
    let _ = println!(rt; "Damage, after which each is as laid out again with its byte put back");
    let mut refused = Judge::new(rt, true);
    for change in DAMAGE {
        refused.change(&mut store, change);
    }
    lengths(&mut refused, &store);
    let _ = println!(rt; "{} refused", refused.tally);
}
