// The boxes of one task set: each choice of one hold in each of its tasks that just exceeds the capacity.
ghost use Rattle.std.specs.Prelude.{◌≡◌, ◌+◌, ◌*◌, ◌^◌, ◌≤◌, ◌<◌, length, take, get_or};
ghost use Rattle.plan_words.specs.Words.{Wrote};
ghost use Rattle.forbidden_boxes.specs.Rows.{Whole};
ghost use Rattle.forbidden_boxes.specs.Choices.{hold_words, choice_words};

use crate::rows::{ROW, Rows};
use crate::sides::{first_side, side_count};
use crate::sum::{Sum, missing_units, with_side};
use model::MAX_TASKS;

// What a device's boxes have in common: their first word, and the capacity that each exceeds.
#[derive(Clone, Copy)]
pub(crate) struct Limit {
    pub(crate) header: u32,
    pub(crate) capacity: u8,
}

// The boxes with each hold of the last task of a set, the first of `left` tasks; `sides` has the sides of all others, and `sum` their units.
fn hold_boxes(
    plan: &mut [u32],
    at: usize,
    rows: &Rows,
    limit: Limit,
    left: usize,
    task: usize,
    sides: &[u32; MAX_TASKS],
    sum: Sum,
) -> Option<usize>
    requires at_in_bounds { at ≤ length plan.old }
    requires task_bound { left + task ≤ 8 }
    requires task_bound_2 { task < 8 }
    ensures { Wrote plan.old at (hold_words rows.now.sides rows.now.units limit.header limit.capacity (task + left) task sides.now sum.all sum.least (get_or rows.now.holds task 0)) result plan.new }
{
    let tasks = task + left;
    let count = rows.holds[task];
    let missing = missing_units(sum, limit.capacity);
    let mut to = at;
    for i in 0..count {
        let units = rows.units[task * ROW + i] as u32;
        if missing.contains(&units) {
            let side = rows.sides[task * ROW + i];
            to = plan_words::write_box(plan, to, limit.header, sides, tasks, task, side)?;
        }
    }
    Some(to)
}

// The boxes of a task set over the tasks from `task` on, `left` of them, with the sides of the tasks before and their units: each choice of one side a task, the first task's
// weighing most. The mask's lowest bit is for `task`; where only that task of the set is left, `sides` has the rest.
pub(crate) fn choices(
    plan: &mut [u32],
    at: usize,
    rows: &Rows,
    limit: Limit,
    left: usize,
    task: usize,
    mask: u32,
    sides: [u32; MAX_TASKS],
    sum: Sum,
) -> Option<usize>
    requires at_in_bounds { at ≤ length plan.old }
    requires task_bound { left + task ≤ 8 }
    requires mask_bound { mask < 2 ^ left }
    requires mask_nonzero { 0 < mask }
    requires whole { Whole rows.now.sides sides task left }
    requires all_bound { sum.all ≤ 255 * task }
    ensures { Wrote plan.old at (choice_words rows.now.sides rows.now.units rows.now.holds limit.header limit.capacity left task mask sum.all sum.least (take task sides)) result plan.new }
{
    if mask == 1 {
        return hold_boxes(plan, at, rows, limit, left, task, &sides, sum);
    }
    let count = side_count(rows, task, mask);
    let first = first_side(task, mask);
    let mut next = sides;
    let mut to = at;
    for i in 0..count {
        next[task] = rows.sides[first + i];
        to = choices(
            plan,
            to,
            rows,
            limit,
            left - 1,
            task + 1,
            mask / 2,
            next,
            with_side(sum, mask, rows.units[first + i]),
        )?;
    }
    Some(to)
}
