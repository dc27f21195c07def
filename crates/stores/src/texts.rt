// Opens with texts that are refused, and with the longest that are not (document 01, Refusals by operation, Open).
use crate::saying::Bench;
use text::front;

// The store: R 4,096 and a row of each table.
const LENGTH: usize = 4958;

const COUNTS: [u64; 4] = [4096, 1, 1, 1];

// A first line that is a rule: the faulty one is line 2.
const FIRST: [u8; 15] = *b"[\"deny\",\"all\"]\n";

// Second lines that are not JSON: a word; an empty line; a bracket that stays open; a rule with an LF in it; a byte 0 behind it.
const NOT_JSON: [&[u8]; 5] = [
    b"deny",
    b"\n",
    b"[\"deny\",\"all\"",
    b"[\"deny\",\n\"all\"]",
    b"[\"deny\",\"all\"]\x00",
];

// Second lines that are no rules: an object; access alone; another word; a control that is none; no valid filter; line 3 not JSON either.
const NO_RULES: [&[u8]; 6] = [
    b"{}",
    b"[\"deny\"]",
    b"[\"refuse\",\"all\"]",
    b"[\"deny\",\"all\",\"read\"]",
    b"[\"deny\",\"all\",\"all\",[\"a#\"]]",
    b"[]\ndeny",
];

// An open for a text of two lines, of which the first is a rule.
fn second(bench: &mut Bench<'_, impl Print, LENGTH>, line: &[u8]) {
    let mut text = [b' '; 4096];
    text::paste(&FIRST, &mut text, 0);
    text::paste(line, &mut text, FIRST.len());
    if line.len() < 4000 {
        bench.attempt(LENGTH, COUNTS, front(&text, FIRST.len() + line.len()));
    }
}

// 256 lines, in which the text has exactly R bytes; a byte more than R; R a byte less; then one line more.
fn many_lines(bench: &mut Bench<'_, impl Print, LENGTH>) {
    let _ = println!(bench.rt;
        "256 lines of 16 bytes, all of R; a byte over R, which is line 257; R a byte less"
    );
    let lines = [*b"[\"deny\", \"all\"]\n"; 257];
    let text = lines.as_flattened();
    bench.attempt(LENGTH, COUNTS, front(text, 4096));
    bench.attempt(LENGTH, COUNTS, front(text, 4097));
    bench.attempt(LENGTH - 1, [4095, 1, 1, 1], front(text, 4096));
    let _ = println!(bench.rt; "256 lines of 15 bytes; a byte more, which is line 257; 257 lines");
    let lines = [FIRST; 257];
    for n in [3840, 3841, 3855] {
        bench.attempt(LENGTH, COUNTS, front(lines.as_flattened(), n));
    }
}

// A second line of 2,048 bytes, by blanks at its end, and of one more, also where it is not JSON.
fn long_lines(bench: &mut Bench<'_, impl Print, LENGTH>) {
    let mut line = [b' '; 2049];
    let _ = println!(bench.rt; "Line 2 of 2,048 bytes; of 2,049; of 2,049 and not JSON");
    text::paste(b"[\"deny\",\"all\"]", &mut line, 0);
    second(bench, front(&line, 2048));
    second(bench, &line);
    text::paste(b"{", &mut line, 0);
    second(bench, &line);
}

// A second line with a topic of 256 bytes, and of one more, also where it is no rule, or not JSON.
fn long_strings(bench: &mut Bench<'_, impl Print, LENGTH>) {
    let mut line = [b'a'; 283];
    let _ = println!(bench.rt;
        "Line 2 with a string of 256 bytes; of 257; of 257 and no rule; of 257 and not JSON"
    );
    text::paste(b"[\"allow\",\"all\",\"all\",[\"", &mut line, 0);
    text::paste(b"\"]]", &mut line, 279);
    second(bench, front(&line, 282));
    text::paste(b"a\"]]", &mut line, 279);
    second(bench, &line);
    text::paste(b"[\"b", &mut line, 0);
    second(bench, &line);
    text::paste(b"{", &mut line, 0);
    second(bench, &line);
}

// A second line with a member name of 256 bytes, and of one more.
fn long_names(bench: &mut Bench<'_, impl Print, LENGTH>) {
    let mut line = [b'a'; 273];
    let _ = println!(bench.rt; "Line 2 with a member name of 256 bytes; of 257");
    text::paste(b"[\"allow\",{\"", &mut line, 0);
    text::paste(b"\":0}]", &mut line, 267);
    second(bench, front(&line, 272));
    text::paste(b"a\":0}]", &mut line, 267);
    second(bench, &line);
}

// A second line with 65 topics, and with 64.
fn many_topics(bench: &mut Bench<'_, impl Print, LENGTH>) {
    let mut topics = [*b"\"a\","; 72];
    let line = topics.as_flattened_mut();
    let _ = println!(bench.rt; "Line 2 with 65 topics; with 64");
    text::paste(b"[\"deny\",\"all\",\"all\",[   ", line, 0);
    text::paste(b"]]", line, 283);
    second(bench, front(line, 285));
    text::paste(b"]]", line, 279);
    second(bench, front(line, 281));
}

// All of them. The first open makes a store of bytes that are none; the later ones find one.
pub(crate) fn texts(rt: &impl Print) {
    let mut bench: Bench<_, LENGTH> = Bench {
        rt,
        buffer: &mut [255; LENGTH],
        whole: LENGTH,
    };
    many_lines(&mut bench);
    long_lines(&mut bench);
    long_strings(&mut bench);
    long_names(&mut bench);
    many_topics(&mut bench);
    let _ = println!(rt;
        "Line 2 not JSON: a word; an empty line; a bracket that stays open; a rule with an LF in it; a byte 0 behind it"
    );
    for line in NOT_JSON {
        second(&mut bench, line);
    }
    let _ = println!(rt;
        "Line 2 no rule: an object; access alone; another word; a control that is none; no valid filter; line 3 not JSON either"
    );
    for line in NO_RULES {
        second(&mut bench, line);
    }
    let _ = println!(rt; "Two rules");
    second(&mut bench, b"[\"allow\",\"all\"]");
}
