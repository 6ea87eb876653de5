// The boxes that a device's rows give, set by set.
ghost use Rattle.std.specs.Prelude.{◌≡◌, ◌&&◌, ◌*◌, ◌^◌, ◌≤◌, length, ltb};
ghost use Rattle.std.specs.Int.Count.{ones};
ghost use Rattle.plan_words.specs.Words.{Wrote};
ghost use Rattle.forbidden_boxes.specs.Rows.{Whole};
ghost use Rattle.forbidden_boxes.specs.Choices.{set_words, table_words};

use crate::choices::{Limit, choices};
use crate::rows::Rows;
use crate::sides::whole_sides;
use crate::sum::{NO_HOLD, Sum};
use model::MAX_TASKS;

// A set of tasks that are all there, and can exceed the capacity.
fn wanted(mask: u8, tasks: usize, most: u8, capacity: u8) -> bool
    requires { tasks ≤ 8 }
    ensures { result ≡ (ltb mask (2 ^ tasks) && ltb capacity (ones mask * most)) }
{
    (mask as u32) < 1u32 << tasks
        && task_sets::can_exceed(task_sets::task_count(mask), most, capacity)
}

// The boxes of one set of the table: none where it is passed over.
fn set_boxes(
    plan: &mut [u32],
    at: usize,
    rows: &Rows,
    limit: Limit,
    tasks: usize,
    most: u8,
    mask: u8,
    sides: [u32; MAX_TASKS],
) -> Option<usize>
    requires at_in_bounds { at ≤ length plan.old }
    requires tasks_bound { tasks ≤ 8 }
    requires whole { Whole rows.now.sides sides 0 tasks }
    ensures { Wrote plan.old at (set_words rows.now.sides rows.now.units rows.now.holds limit.header limit.capacity tasks most mask) result plan.new }
{
    if !wanted(mask, tasks, most, limit.capacity) {
        return Some(at);
    }
    let none = Sum {
        all: 0,
        least: NO_HOLD,
    };
    choices(plan, at, rows, limit, tasks, 0, mask as u32, sides, none)
}

// The boxes of a device's rows, set by set in the table's order.
pub(crate) fn table_boxes(
    plan: &mut [u32],
    at: usize,
    rows: &Rows,
    limit: Limit,
    tasks: usize,
    most: u8,
) -> Option<usize>
    requires at_in_bounds { at ≤ length plan.old }
    requires tasks_bound { tasks ≤ 8 }
    ensures { Wrote plan.old at (table_words rows.now.sides rows.now.units rows.now.holds limit.header limit.capacity tasks most) result plan.new }
{
    let sides = whole_sides(rows, tasks);
    let mut to = at;
    for mask in task_sets::all() {
        // Smaller sets come first: from here on all are too large.
        if task_sets::exceeds_by_more(mask, limit.capacity) {
            return Some(to);
        }
        to = set_boxes(plan, to, rows, limit, tasks, most, mask, sides)?;
    }
    Some(to)
}
