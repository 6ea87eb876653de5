// The task sets one after the other.
ghost use Rattle.std.specs.Prelude.{◌≡◌};
ghost use Rattle.std.specs.Iterator.{YieldsFirst, item_count};
ghost use Rattle.model.specs.TaskTable.{table};
ghost use Rattle.task_sets.specs.Left.{left};

use crate::{FIRST_SET, TASK_SET_COUNT, next_set};

// The sets that are left: how many, and the mask of the first.
#[derive(Drop)]
pub struct TaskSets {
    count: usize,
    mask: u8,
}

impl Iterator for TaskSets {
    type Item = u8;

    ghost next_gives = { YieldsFirst left };

    ghost remaining = { item_count left };

    fn next(&mut self) -> Option<u8> {
        if self.count == 0 {
            return None;
        }
        let mask = self.mask;
        self.count -= 1;
        self.mask = next_set(mask);
        Some(mask)
    }
}

// All of them, as the table has them.
pub fn all() -> TaskSets
    ensures { left result ≡ table }
{
    TaskSets {
        count: TASK_SET_COUNT,
        mask: FIRST_SET,
    }
}
