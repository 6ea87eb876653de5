// The units of a choice of holds, and with which hold more they just exceed a capacity.
ghost use Rattle.std.specs.Prelude.{◌≡◌, ◌&&◌, ℕ, min, ◌+◌, ◌≤◌, ltb, leb};
ghost use Rattle.forbidden_boxes.specs.Choices.{sum_with, least_with, just_over};

use std::ops::Range;

// The units of the holds chosen so far: all of them, and the fewest of one hold.
#[derive(Clone, Copy)]
pub(crate) struct Sum {
    pub(crate) all: u32,
    pub(crate) least: u8,
}

// The fewest before any hold is chosen: more than a hold takes, so that the minimum needs no case of its own.
pub(crate) const NO_HOLD: u8 = 255;

// The units with those of one side more: of a hold, if the task is in the set, the mask's lowest bit; else it takes none. Eight tasks of 255 units fit easily.
pub(crate) fn with_side(sum: Sum, mask: u32, units: u8) -> Sum
    requires { sum.all ≤ 2040 }
    ensures { (result.all ≡ sum_with mask sum.all units) × (result.least ≡ least_with mask sum.least units) × (result.all ≤ sum.all + 255) }
{
    if mask % 2 == 0 {
        return sum;
    }
    Sum {
        all: sum.all + units as u32,
        least: sum.least.min(units),
    }
}

// The units of one hold more with which a choice just exceeds the capacity. They are the same for all holds of a set's last task, so that each hold is tried by two
// comparisons. With more units the hold of the fewest could be spared; where the others exceed the capacity already, the last hold could.
pub(crate) fn missing_units(sum: Sum, capacity: u8) -> Range<u32>
    ensures { (u : ℕ) → (leb result.start u && ltb u result.end) ≡ just_over capacity (sum.all + u) (min sum.least u) }
{
    if (capacity as u32) < sum.all {
        return 0..0;
    }
    let first = capacity as u32 - sum.all + 1;
    first..first + sum.least as u32
}
