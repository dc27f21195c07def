// Replays recorded answers, those of the Rust and, for some lines, document 01's or section 4.7's: reads lines such as `T`, filter, text,
// `yes`, with a TAB between the fields (oracle/README.md says how they are made), writes each line that this port answers otherwise, and,
// at the end, how many of each kind agree.
#![tactic(auto)]

mod asking;
mod clients;
mod fields;
mod input;
mod judging;
mod tallies;

fn main(rt: HostRuntime) {
    input::replay(&rt, &mut rt.stdin());
}
