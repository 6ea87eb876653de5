// What the programs that play calls have in common: the answers of the calls as text, an output that passes over failed writes, and the states that they
// ask about.
#![tactic(auto)]

mod answers;
mod output;
mod states;

pub use answers::{Counted, Rows, Said, tallies};
pub use output::Onward;
pub use states::{UNREAD, positions_up_to, state_at};
