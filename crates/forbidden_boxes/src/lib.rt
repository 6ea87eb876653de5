// The forbidden boxes of a set, written to a plan in order (SCOPE.md, "Forbidden boxes").
#![tactic(auto)]

mod choices;
mod rows;
mod sets;
mod sides;
mod sum;
mod units;

ghost use Rattle.std.specs.Prelude.{◌≤◌, ◌<◌, length};
ghost use Rattle.model.specs.Forbidden.{forbidden};
ghost use Rattle.model.specs.Plan.{forbidden_words};
ghost use Rattle.shape.specs.SetOf.{set_of};
ghost use Rattle.plan_words.specs.Words.{Wrote};
ghost use Rattle.forbidden_boxes.specs.Units.{NoMore};
ghost use Rattle.forbidden_boxes.specs.Choices.{device_words};

use choices::Limit;
use shape::AcceptedSet;

// The boxes of one device: none where its tasks, or those that claim it, can't exceed its capacity even if each takes `most` units.
fn device_boxes(
    set: &AcceptedSet,
    device: usize,
    most: u8,
    rows: &mut rows::Rows,
    plan: &mut [u32],
    at: usize,
) -> Option<usize>
    requires device_in_bounds { device < length (set_of set.now).capacities }
    requires no_more { NoMore (set_of set.now) device most }
    requires at_in_bounds { at ≤ length plan.old }
    ensures { Wrote plan.old at (device_words (set_of set.now) device) result plan.new }
{
    let capacity = set.shape.capacities[device];
    let tasks = set.shape.tasks;
    if !task_sets::can_exceed(tasks, most, capacity) {
        return Some(at);
    }
    rows::task_rows(set, device as u32, rows);
    if !task_sets::can_exceed(rows::claimers(rows, tasks), most, capacity) {
        return Some(at);
    }
    let header = plan_words::forbidden_box(device as u32);
    sets::table_boxes(plan, at, rows, Limit { header, capacity }, tasks, most)
}

// The forbidden boxes of an accepted set.
pub fn forbidden_boxes(set: &AcceptedSet, plan: &mut [u32]) -> Option<usize>
    ensures { Wrote plan.old 0 (forbidden_words (forbidden (set_of set.now))) result plan.new }
{
    let most = units::most_units(set);
    let mut rows = rows::Rows::new();
    let mut to = 0;
    for d in 0..set.shape.devices {
        to = device_boxes(set, d, most[d], &mut rows, plan, to)?;
    }
    Some(to)
}
