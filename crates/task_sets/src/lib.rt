// The non-empty sets of eight tasks, each worked out from the one before, and the tests of a set's size. A set is a mask with bit i for task i.
#![tactic(auto)]

mod sets;

ghost use Rattle.std.specs.Prelude.{◌≡◌, ℕ, ◌+◌, ◌-◌, ◌*◌, ◌^◌, ◌≤◌, ◌<◌, ltb};
ghost use Rattle.std.specs.Int.Count.{ones};
ghost use Rattle.task_sets.specs.Next.{follow, next};

pub use sets::{TaskSets, all};

// How many task sets there are.
pub const TASK_SET_COUNT: usize = 255;

// The first set: task 0 alone.
pub const FIRST_SET: u8 = 1;

// Task 7 and all eight, as masks.
const LAST_TASK: u8 = 128;

const ALL_TASKS: u8 = 255;

// What comes after the last set. It is no Option, since the definition that `next_set` promises has the 0.
const NO_SET: u8 = 0;

// The next set where `gap` is the last absent task and `before` has the tasks before it. The last of these goes on by one and the tasks behind the gap follow it: a row
// as long as from the gap to task 7. It comes down from there until it begins one past the last of `before`, which it replaces, or at task 0 where there are none. A gap that
// isn't one task is promised nothing.
fn follow(before: u8, gap: u8) -> u8
    requires { before < gap }
    ensures { (n : ℕ) → gap ≡ 2 ^ n → result ≡ follow n before (2 ^ 8 - gap) }
{
    // All tasks but those before the gap.
    let mut row = ALL_TASKS - (gap - 1);
    // The task right before the row, and 0 once the row begins at task 0.
    let mut task = gap / 2;
    while before < task {
        task /= 2;
        row /= 2;
    }
    before - task + row
}

// The next set, from the mask of a set alone: the tasks behind the last absent one are taken off, and `follow` puts them where they come next.
pub fn next_set(mask: u8) -> u8
    ensures { result ≡ next mask }
{
    // No task is absent: no gap would be found.
    if mask == ALL_TASKS {
        return NO_SET;
    }
    let mut before = mask;
    let mut gap = LAST_TASK;
    while gap <= before {
        before -= gap;
        gap /= 2;
    }
    follow(before, gap)
}

// How many tasks a set has.
pub fn task_count(mask: u8) -> usize
    ensures { result ≡ ones mask }
{
    mask.count_ones() as usize
}

// Whether so many tasks can exceed the capacity, where each takes at most `most` units.
pub fn can_exceed(tasks: usize, most: u8, capacity: u8) -> bool
    requires { tasks ≤ 8 }
    ensures { result ≡ ltb capacity (tasks * most) }
{
    (capacity as usize) < tasks * most as usize
}

// Whether a set has more tasks than the capacity and one: then a hold can always be spared, since each has a unit.
pub fn exceeds_by_more(mask: u8, capacity: u8) -> bool
    ensures { result ≡ ltb (capacity + 1) (ones mask) }
{
    capacity as usize + 1 < task_count(mask)
}
