// The sides that a task is given in a box, out of its row.
ghost use Rattle.std.specs.Prelude.{◌≡◌, ◌≤◌, ◌<◌};
ghost use Rattle.forbidden_boxes.specs.Rows.{Whole};
ghost use Rattle.forbidden_boxes.specs.Choices.{side_count, first_side};

use crate::rows::{ROW, Rows, WHOLE};
use model::MAX_TASKS;

// The words of all tasks over all their positions.
pub(crate) fn whole_sides(rows: &Rows, tasks: usize) -> [u32; MAX_TASKS]
    requires { tasks ≤ 8 }
    ensures { Whole rows.now.sides result 0 tasks }
{
    let mut sides = [0u32; MAX_TASKS];
    for t in 0..tasks {
        sides[t] = rows.sides[t * ROW + WHOLE];
    }
    sides
}

// How many sides a task is given: its holds if it is in the set, the mask's lowest bit, else the whole of it.
pub(crate) fn side_count(rows: &Rows, task: usize, mask: u32) -> usize
    requires { task < 8 }
    ensures { result ≡ side_count rows.now.holds task mask }
{
    if mask % 2 == 1 { rows.holds[task] } else { 1 }
}

// Where the first of them stands in the rows.
pub(crate) fn first_side(task: usize, mask: u32) -> usize
    requires { task < 8 }
    ensures { result ≡ first_side task mask }
{
    if mask % 2 == 1 {
        task * ROW
    } else {
        task * ROW + WHOLE
    }
}
