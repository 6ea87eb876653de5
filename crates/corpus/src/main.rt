// Plays the cases of standard input and prints what every call answers; the head of tests/make_corpus.py has the format of both.
#![tactic(auto)]

mod calls;
mod cases;
mod input;
mod lent;
mod plays;
mod questions;
mod rounds;
mod sets;
mod sums;
mod text;
mod trials;

// What can't be written is passed over: the cases are played to the last.
fn main(rt: HostRuntime) {
    let _ = cases::play_all(rt);
}
