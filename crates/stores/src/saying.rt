// What is written of an open: the question, the answer, and the state of the store then. What cannot be written is lost; the run goes on.
ghost use Rattle.std.specs.Prelude.{◌<◌, ◌^◌};

use rule::refusal_number;
use store::check::check;
use store::opening::open;
use text::front;

// A buffer whose first `whole` bytes are a store that is opened over and over. The first `KEPT` bytes are compared with those before an open.
#[derive(Drop)]
pub(crate) struct Bench<'a, P: Print, const KEPT: usize> {
    pub(crate) rt: &'a P,
    pub(crate) buffer: &'a mut [u8],
    pub(crate) whole: usize,
}

impl<P: Print, const KEPT: usize> Bench<'_, P, KEPT> {
    // Lends the first `lent` bytes to an open, and writes the state of the store then.
    pub(crate) fn attempt(&mut self, lent: usize, counts: [u64; 4], text: &[u8])
        requires { KEPT < 2 ^ 63 }
    {
        if self.buffer.len() < lent {
            return;
        }
        let mut kept = [0; KEPT];
        let buffer = &mut *self.buffer;
        text::paste(front(buffer, KEPT), &mut kept, 0);
        answer(self.rt, &mut buffer[..lent], counts, text);
        self.say_state(&kept);
    }

    // Does the buffer begin as it was kept, and is the store as laid out?
    fn say_state(&self, kept: &[u8]) {
        let changed = if text::begins(self.buffer, kept) {
            "unchanged"
        } else {
            "changed"
        };
        let laid = if check(front(self.buffer, self.whole)) {
            "as laid out"
        } else {
            "not as laid out"
        };
        let _ = println!(self.rt; ", {changed}, {laid}");
    }
}

// Opens the lent bytes for these counts, that of the rule bytes first, and writes the counts, the two lengths and the answer.
fn answer(rt: &impl Print, lent: &mut [u8], counts: [u64; 4], text: &[u8]) {
    let [bytes, filters, eqs, notes] = counts;
    let (room, n) = (lent.len(), text.len());
    let _ = print!(rt; "open {bytes} {filters} {eqs} {notes} in {room} bytes, text of {n}: ");
    let _ = match open(lent, bytes, filters, eqs, notes, text) {
        Ok(()) => print!(rt; "done"),
        Err(fault) => print!(rt; "error {} line {}", refusal_number(fault.cause), fault.line),
    };
}
