// Questions to a stored plan, and what is printed of them.
ghost use Rattle.std.specs.Prelude.{◌≤◌};

use crate::sums;
use crate::text::Marks;
use console::Said;
use plan_reader::Location;
use refusals::Refusal;
use std::io;

// What a sweep shows of a state: a byte for whether it lies in no box, in a forbidden or an unsafe one, and the box's index, 0 for none; of a refusal a byte of its own
// and the place.
#[derive(Clone, Copy)]
struct Spot {
    mark: u8,
    index: usize,
}

const NEITHER: u8 = 0;

const FORBIDDEN: u8 = 1;

const UNSAFE: u8 = 2;

const REFUSED: u8 = route::NO_STEP;

// An index goes into a checksum modulo this.
const WORDS: usize = 0x1_0000_0000;

// The most states of a sweep: those of the largest grid.
const MAX_STATES: usize = model::MAX_GRID as usize;

pub fn locate(
    rt: &impl Print,
    plan: &[u32],
    tasks: usize,
    state: [u8; model::MAX_TASKS],
) -> io::Result<()> {
    println!(rt; "{}", Said(plan_reader::locate(state, plan, tasks)))
}

// A question at every state of so many tasks up to these positions, the last task's fastest; 0 stands for those of absent tasks.
pub fn sweep(
    rt: &impl Print,
    plan: &[u32],
    tasks: usize,
    last: [u8; model::MAX_TASKS],
) -> io::Result<()> {
    let mut row = [0u8; MAX_STATES];
    let n = states_up_to(last);
    let sum = fill_row(plan, tasks, last, &mut row[..n]);
    println!(rt; "swept {sum:08X}:{}", Marks(&row[..n]))
}

// How many states there are up to these positions, counted no further than a sweep goes.
fn states_up_to(last: [u8; model::MAX_TASKS]) -> usize
    ensures { result ≤ 65536 }
{
    let mut states: usize = 1;
    for position in last {
        states = states.saturating_mul(console::positions_up_to(position));
    }
    states.min(MAX_STATES)
}

// A mark for each state, and the checksum of the indices.
fn fill_row(plan: &[u32], tasks: usize, last: [u8; model::MAX_TASKS], row: &mut [u8]) -> u32 {
    let mut sum = sums::START;
    for (rank, mark) in row.iter_mut().enumerate() {
        let spot = spot_of(plan_reader::locate(console::state_at(last, tasks, rank), plan, tasks));
        *mark = spot.mark;
        sum = sums::sum_word(sum, (spot.index % WORDS) as u32);
    }
    sum
}

fn spot_of(said: Result<Location, Refusal>) -> Spot {
    let (mark, index) = match said {
        Ok(Location::Forbidden { index }) => (FORBIDDEN, index),
        Ok(Location::Unsafe { index }) => (UNSAFE, index),
        Ok(Location::Neither) => (NEITHER, 0),
        Err(refusal) => (REFUSED, refusal.place),
    };
    Spot { mark, index }
}
