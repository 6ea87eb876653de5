// The most units that a claim of each device takes: what tells, before any row is made, which task sets can't exceed a capacity.
ghost use Rattle.std.specs.Prelude.{◌<◌};
ghost use Rattle.model.specs.Set.{at};
ghost use Rattle.shape.specs.SetOf.{set_of};
ghost use Rattle.forbidden_boxes.specs.Units.{TaskNoted, MostUnits};

use model::MAX_DEVICES;
use shape::AcceptedSet;

// The most units of each device, with those of a task's actions, whose words are read by index as for the rows.
fn task_noted(set: &AcceptedSet, task: usize, most: &mut [u8; MAX_DEVICES])
    requires { task < set.now.shape.tasks }
    ensures { TaskNoted set.now.words.now (at set.now.shape.starts task) (at set.now.shape.lengths task) most.old most.new }
{
    let start = set.shape.starts[task];
    for p in 0..set.shape.lengths[task] {
        let word = set.words[start + p as usize];
        if set_words::is_claim(word) {
            let device = set_words::device(word) as usize;
            most[device] = most[device].max(set_words::units(word) as u8);
        }
    }
}

// The most units of each device in all tasks.
pub(crate) fn most_units(set: &AcceptedSet) -> [u8; MAX_DEVICES]
    ensures { MostUnits (set_of set.now) set.now.shape.tasks result }
{
    let mut most = [0u8; MAX_DEVICES];
    for t in 0..set.shape.tasks {
        task_noted(set, t, &mut most);
    }
    most
}
