// Opens at the least and the greatest counts, one past each, and with a store a byte too short or too long (document 01: "4 count out
// of range or store length unequal to the formula").
use crate::saying::Bench;
use text::front;

// 16 + R + 326F + 260E + 260N at the least and at the greatest counts.
const LEAST: usize = 863;

// A byte more than the least.
const LONGER: usize = LEAST + 1;

const GREATEST: usize = 3498000;

// Room for a store of the greatest counts and one filter row more.
const BUFFER: usize = 3498326;

// The header and the greatest rule text. In a store that is as laid out and has no used row, all behind them is zero.
const FRONT: usize = 32784;

// The least counts, with texts and with lengths of the store; a count of 0, and counts that are in range by their low 16 bits alone.
const LEAST_OPENS: [(usize, [u64; 4], &[u8]); 19] = [
    (863, [1, 1, 1, 1], b"x"),
    (863, [1, 1, 1, 1], b""),
    (863, [1, 1, 1, 1], b"x"),
    (863, [1, 1, 1, 1], b"\n"),
    (863, [1, 1, 1, 1], b"7"),
    (863, [1, 1, 1, 1], b"[]"),
    (862, [1, 1, 1, 1], b""),
    (864, [1, 1, 1, 1], b""),
    (0, [1, 1, 1, 1], b""),
    (862, [0, 1, 1, 1], b""),
    (862, [0, 1, 1, 1], b"x"),
    (537, [1, 0, 1, 1], b""),
    (603, [1, 1, 0, 1], b""),
    (603, [1, 1, 1, 0], b""),
    (16, [0, 0, 0, 0], b""),
    (863, [65537, 1, 1, 1], b""),
    (863, [1, 65537, 1, 1], b""),
    (863, [18446744073709551615, 1, 1, 1], b""),
    (863, [1, 1, 1, 1], b""),
];

// The greatest counts, and one past each.
const GREATEST_OPENS: [(usize, [u64; 4]); 7] = [
    (3498000, [32768, 4096, 4096, 4096]),
    (3497999, [32768, 4096, 4096, 4096]),
    (3498001, [32768, 4096, 4096, 4096]),
    (3498001, [32769, 4096, 4096, 4096]),
    (3498326, [32768, 4097, 4096, 4096]),
    (3498260, [32768, 4096, 4097, 4096]),
    (3498260, [32768, 4096, 4096, 4097]),
];

// The least counts. The bytes before the first open are no store.
pub(crate) fn least(rt: &impl Print) {
    let mut bench: Bench<_, LONGER> = Bench {
        rt,
        buffer: &mut [255; LONGER],
        whole: LEAST,
    };
    let _ = println!(rt; "The least counts");
    for (lent, counts, text) in LEAST_OPENS {
        bench.attempt(lent, counts, text);
    }
}

// 32,768 bytes of rule text, in 256 lines of 128 with their LF, and a byte more.
fn longest(bench: &mut Bench<'_, impl Print, FRONT>) {
    let mut line = [b' '; 128];
    text::paste(b"[\"deny\",\"all\"]", &mut line, 0);
    text::paste(b"\n", &mut line, 127);
    let lines = [line; 257];
    for n in [32768, 32769] {
        bench.attempt(
            GREATEST,
            [32768, 4096, 4096, 4096],
            front(lines.as_flattened(), n),
        );
    }
}

// The greatest counts, in a buffer that is handed over whole: the proof doesn't go into its bytes.
fn opens_at_greatest(rt: &impl Print, buffer: &mut [u8; BUFFER]) {
    let mut bench: Bench<_, FRONT> = Bench {
        rt,
        buffer,
        whole: GREATEST,
    };
    for (lent, counts) in GREATEST_OPENS {
        bench.attempt(lent, counts, b"");
    }
    longest(&mut bench);
}

// The greatest counts. The bytes before the first open are no store.
pub(crate) fn greatest(rt: &impl Print) {
    let _ = println!(rt; "The greatest counts");
    opens_at_greatest(rt, &mut [255; BUFFER]);
}
