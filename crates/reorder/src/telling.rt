// Writes what happened, from what was recorded.
use crate::listing::listed;
use crate::running::Answered;
use rule::refusal_number;

// Writes the events of a run, each with what was answered to it.
pub(crate) fn tell(rt: &impl Print, run: &[Answered]) {
    for Answered { number, answer } in run {
        let event = listed(*number);
        let _ = match answer {
            Ok(()) => println!(rt; "{number} {event}: done"),
            Err(cause) => println!(rt; "{number} {event}: error {}", refusal_number(*cause)),
        };
    }
}
