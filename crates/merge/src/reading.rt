// What the reader would answer to the merged words. They stand nowhere yet, and a refused merge writes none; but each set keeps the rules, so only what both have
// together can be too much: devices, tasks, the grid.
ghost use Rattle.std.specs.Prelude.{◌≡◌};
ghost use Rattle.model.specs.Read.{read};
ghost use Rattle.model.specs.Merge.{Shares};
ghost use Rattle.refusals.specs.Answers.{answer_of};
ghost use Rattle.shape.specs.SetOf.{set_of};
ghost use Rattle.merge.specs.Sets.{merged_set, merged_words};

use refusals::{Reason, Refusal};
use shape::AcceptedSet;

const MAX_GRID: usize = model::MAX_GRID as usize;

pub(crate) fn read_merged(
    first: &AcceptedSet,
    second: &AcceptedSet,
    shared: usize,
) -> Result<(), Refusal>
    requires { Shares shared (set_of first.now) (set_of second.now) }
    ensures { answer_of (λ _. merged_set shared first.now.words.now second.now.words.now) result
        ≡ read (merged_words shared first.now.words.now second.now.words.now) }
{
    if first.shape.devices + second.shape.devices - shared > model::MAX_DEVICES {
        return Err(Reason::TooMany.at(model::MAX_DEVICES));
    }
    // The words of the second set's tasks stand so far behind their places in it.
    let moved = first.words.len() - 1 - shared;
    if first.shape.tasks + second.shape.tasks > model::MAX_TASKS {
        let ninth = model::MAX_TASKS - first.shape.tasks;
        return Err(Reason::TooMany.at(moved + second.shape.starts[ninth] - 1));
    }
    if first.shape.grid * second.shape.grid > MAX_GRID {
        return Err(Reason::GridTooLarge.at(moved + second.words.len() - 1));
    }
    Ok(())
}
