// The merged words, part by part.
ghost use Rattle.std.specs.Prelude.{◌≡◌, ◌<◌, ◌≤◌, length};
ghost use Rattle.model.specs.Slice.{over};
ghost use Rattle.model.specs.Merge.{merged_number, Shares};
ghost use Rattle.shape.specs.SetOf.{set_of};
ghost use Rattle.merge.specs.Sets.{NumbersAre, merged_words};

use shape::AcceptedSet;

// The number of a device of the second set, where the first has so many: a shared one keeps its own, the others follow the first set's.
fn number(devices: usize, shared: usize, device: usize) -> u8
    requires { (devices ≤ 16) × (device < 16) }
    ensures { result ≡ merged_number devices shared device }
{
    if device < shared {
        return device as u8;
    }
    (devices + (device - shared)) as u8
}

// The numbers of all devices of the second set.
fn number_devices(devices: usize, shared: usize, others: usize) -> [u8; model::MAX_DEVICES]
    requires { (devices ≤ 16) × (others ≤ 16) }
    ensures { NumbersAre devices shared others result }
{
    let mut numbers = [0u8; model::MAX_DEVICES];
    for d in 0..others {
        numbers[d] = number(devices, shared, d);
    }
    numbers
}

// Writes the merged set, and answers how many words it has: the first set's DEVICEs, the second's own, the first set's tasks, the second's with its devices' new
// numbers, and END.
pub(crate) fn write_merged(
    first: &AcceptedSet,
    second: &AcceptedSet,
    shared: usize,
    slice: &mut [u32],
) -> usize
    requires shares { Shares shared (set_of first.now) (set_of second.now) }
    requires second_in_bounds { length (merged_words shared first.now.words.now second.now.words.now) ≤ length slice.old }
    ensures value { result ≡ length (merged_words shared first.now.words.now second.now.words.now) }
    ensures slice_after { slice.new ≡ over (merged_words shared first.now.words.now second.now.words.now) slice.old }
{
    let devices = first.shape.devices;
    let others = second.shape.devices;
    let end = first.words.len() - 1;
    let last = second.words.len() - 1;
    let numbers = number_devices(devices, shared, others);
    let own = set_writer::write_words(&first.words[..devices], slice, 0);
    let tasks = set_writer::write_words(&second.words[shared..others], slice, own);
    let more = set_writer::write_words(&first.words[devices..end], slice, tasks);
    let to = set_writer::write_tasks(&second.words[others..last], &numbers, slice, more);
    set_writer::write_end(slice, to)
}
