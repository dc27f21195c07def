// The public face of the access rules: a store is opened, events change it, questions are answered on it. Each call takes any bytes and
// answers by its contract, or refuses by number with all lent memory unchanged. The theorem on lists of events (demand 3) stands in
// specs/Demand3.antt and proofs/Reordering.antt, over the definitions that these contracts cite.
#![tactic(auto)]

pub use events::connecting::connected;
pub use events::leaving::{disconnected, ended};
pub use questions::ask::{connect, publish, subscribe};
pub use questions::{ConnectAnswer, PublishAnswer, SubscribeAnswer};
pub use rule::agreement::Client;
pub use rule::{Fault, Refusal};
pub use store::opening::open;
