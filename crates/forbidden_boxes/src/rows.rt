// The rows of a device's side words: for each task one place a hold, and the one over all its positions; and the units of each hold, in the same places.
ghost use Rattle.std.specs.Prelude.{◌≡◌, ◌≤◌, ◌<◌};
ghost use Rattle.model.specs.Set.{at};
ghost use Rattle.shape.specs.SetOf.{set_of};
ghost use Rattle.forbidden_boxes.specs.Rows.{Sized, HoldSides, RowMade, RowsMade};
ghost use Rattle.forbidden_boxes.specs.Choices.{claimers_from};

use model::MAX_TASKS;
use shape::AcceptedSet;

// A row has room for a word a hold, which are 127 at most, since a hold takes two of at most 255 actions; the last place is for the whole task.
pub(crate) const ROW: usize = 128;

pub(crate) const WHOLE: usize = ROW - 1;

// A row a task.
const ROWS: usize = MAX_TASKS * ROW;

// The side words and the units, row after row, and the number of holds of each task.
#[derive(Drop)]
pub(crate) struct Rows {
    pub(crate) sides: [u32; ROWS],
    pub(crate) units: [u8; ROWS],
    pub(crate) holds: [usize; MAX_TASKS],
    pub(crate) ghost sized: { Sized sides units holds },
}

impl Rows {
    // Rows of no holds, to be made for a device.
    pub(crate) fn new() -> Self {
        Self {
            sides: [0; ROWS],
            units: [0; ROWS],
            holds: [0; MAX_TASKS],
        }
    }
}

// The side words and units of a task's holds of a device, put into its row; answers how many there are. The task's words are read by index: nothing says of an empty task that
// a slice from its start lies among the words.
fn hold_sides(set: &AcceptedSet, task: usize, device: u32, rows: &mut Rows) -> usize
    requires { task < set.now.shape.tasks }
    ensures listed { HoldSides set.now.words.now (at set.now.shape.starts task) (at set.now.shape.lengths task) device task rows.old.sides rows.old.units result rows.new.sides rows.new.units }
    ensures same_holds { rows.new.holds ≡ rows.old.holds }
{
    let start = set.shape.starts[task];
    let mut count = 0;
    let mut low: u8 = 0;
    let mut taken: u8 = 0;
    for p in 0..set.shape.lengths[task] {
        let word = set.words[start + p as usize];
        if set_words::device(word) == device {
            if set_words::is_claim(word) {
                low = p + 1;
                taken = set_words::units(word) as u8;
            } else {
                rows.sides[task * ROW + count] = plan_words::side(task, low, p);
                rows.units[task * ROW + count] = taken;
                count += 1;
            }
        }
    }
    count
}

// A task's row; answers the number of its holds.
fn task_row(set: &AcceptedSet, task: usize, device: u32, rows: &mut Rows) -> usize
    requires { task < set.now.shape.tasks }
    ensures made { RowMade set.now.words.now (at set.now.shape.starts task) (at set.now.shape.lengths task) device task rows.old.sides rows.old.units result rows.new.sides rows.new.units }
    ensures same_holds { rows.new.holds ≡ rows.old.holds }
{
    let count = hold_sides(set, task, device, rows);
    rows.sides[task * ROW + WHOLE] = plan_words::side(task, 0, set.shape.lengths[task]);
    count
}

// The rows of all tasks.
pub(crate) fn task_rows(set: &AcceptedSet, device: u32, rows: &mut Rows)
    ensures { RowsMade (set_of set.now) set.now.shape.tasks device rows.new.holds rows.new.sides rows.new.units }
{
    rows.holds = [0; MAX_TASKS];
    for t in 0..set.shape.tasks {
        let count = task_row(set, t, device, rows);
        rows.holds[t] = count;
    }
}

// How many tasks hold the device at some time.
pub(crate) fn claimers(rows: &Rows, tasks: usize) -> usize
    requires { tasks ≤ 8 }
    ensures { result ≡ claimers_from 0 tasks rows.now.holds }
{
    let mut found = 0;
    for t in 0..tasks {
        if rows.holds[t] != 0 {
            found += 1;
        }
    }
    found
}
