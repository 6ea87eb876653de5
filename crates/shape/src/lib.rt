// The shape of a set: what an accepted list of words declares, by value. The reader makes it, and every layer above takes it with the words, as an accepted set.
#![tactic(auto)]

mod accepted;

pub use accepted::AcceptedSet;

#[derive(Clone, Copy)]
pub struct Shape {
    pub devices: usize,
    // The entries of the arrays past the counts are 0. The tasks' numbers are arrays of their own, since most passes read one of them, at every state.
    pub capacities: [u8; model::MAX_DEVICES],
    pub tasks: usize,
    // The action count of each task.
    pub lengths: [u8; model::MAX_TASKS],
    // The index of each task's first action word.
    pub starts: [usize; model::MAX_TASKS],
    // How many ranks a step of each task goes up.
    pub weights: [usize; model::MAX_TASKS],
    // The number of states, 1 for a set without tasks.
    pub grid: usize,
}
