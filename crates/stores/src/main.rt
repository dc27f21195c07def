// Opens stores at the least and the greatest counts and one past them, and with every kind of text that is refused; then damages every
// kind of byte of a store with rows and asks for the check behind number 3 each time. What it writes is compared with the file `stdout`.
#![tactic(auto)]

mod counts;
mod damage;
mod saying;
mod tally;
mod texts;

fn main(rt: HostRuntime) {
    counts::least(&rt);
    counts::greatest(&rt);
    texts::texts(&rt);
    damage::damage(&rt);
}
