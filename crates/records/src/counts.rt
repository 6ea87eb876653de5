// The counts of a window: each task's grants in it.
ghost use Rattle.std.specs.Prelude.{◌≡◌, ◌+◌, ◌<◌, ◌≤◌, ◌&&◌, nat_le, nat_lt, slice_set};
ghost use Rattle.model.specs.Below.{any};
ghost use Rattle.model.specs.Set.{at};
ghost use Rattle.model.specs.State.{sum};
ghost use Rattle.model.specs.Broker.{in_window};

// The grants of all tasks together.
pub(crate) fn total(counts: [u8; model::MAX_TASKS]) -> u32
    ensures { result ≡ sum counts }
{
    counts.iter().map(|count| *count as u32).sum()
}

// The counts after one more grant to a task: all 0 once the window's grants are used up.
pub(crate) fn counted(
    counts: [u8; model::MAX_TASKS],
    task: usize,
    window: u32,
) -> [u8; model::MAX_TASKS]
    requires { (task < 8) × (at counts task < 255) }
    ensures { result ≡ in_window window (slice_set counts task (at counts task + 1)) }
{
    let mut next = counts;
    next[task] += 1;
    if window <= total(next) {
        return [0; model::MAX_TASKS];
    }
    next
}

// Whether a task from this one on has a count.
pub(crate) fn some_from(counts: [u8; model::MAX_TASKS], first: usize) -> bool
    requires { first ≤ 8 }
    ensures { result ≡ any 8 (λ t. nat_le first t && nat_lt 0 (at counts t)) }
{
    for t in first..model::MAX_TASKS {
        if 0 < counts[t] {
            return true;
        }
    }
    false
}
