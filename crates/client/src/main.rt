// Reads a client's first line, its rule lines, an empty line and question lines, and writes a line for each question (docs/DECISIONS.md, Programs).
#![tactic(auto)]

use streams::clients::ask_for_client;

fn main(rt: HostRuntime) {
    ask_for_client(&rt, &mut rt.stdin(), &mut rt.stdout());
}
