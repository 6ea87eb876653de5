// Questions to a stored plan, without its set: where a state lies, or the first word outside the layout.
#![tactic(auto)]

mod seen;
mod walk;
mod words;

ghost use Rattle.std.specs.Prelude.{◌≡◌};
ghost use Rattle.model.specs.StoredPlan as model;
ghost use Rattle.refusals.specs.Answers.{answer_of};
ghost use Rattle.plan_reader.specs.Says.{location_of};

use refusals::{Reason, Refusal};

// Where a state lies.
#[derive(Clone, Copy, Debug, PartialEq, Eq)]
pub enum Location {
    // The index of the first word of the first such box that holds the state.
    Forbidden { index: usize },
    Unsafe { index: usize },
    Neither,
}

// Where a state lies in a plan of so many tasks; of its positions those past them are unread.
pub fn locate(
    state: [u8; model::MAX_TASKS],
    plan: &[u32],
    tasks: usize,
) -> Result<Location, Refusal>
    ensures { answer_of location_of result ≡ model.locate state plan.now tasks }
{
    if tasks == 0 || model::MAX_TASKS < tasks {
        return Err(Reason::BadTaskCount.at(0));
    }
    walk::walk(plan, tasks, state)
}
