// Reads rule lines, an empty line and event lines, and writes a line for each event line (document 01, Marked examples).
#![tactic(auto)]

use streams::deciding::decide;

fn main(rt: HostRuntime) {
    decide(&rt, &mut rt.stdin(), &mut rt.stdout());
}
