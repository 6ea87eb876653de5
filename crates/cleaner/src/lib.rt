// The cleaner: a set without the devices that no task claims, which the former rules let stand. The other devices keep their order and are numbered anew.
#![tactic(auto)]

ghost use Rattle.std.specs.Prelude.{◌≡◌, ◌≤◌, length};
ghost use Rattle.model.specs.Slice.{over};
ghost use Rattle.model.specs.Clean as model;
ghost use Rattle.cleaner.specs.Says.{cleaned_of};
ghost use Rattle.cleaner.specs.Numbers.{Numbers, NumbersAre, clean_words, Accepted};

use reader::Rules;
use refusals::{Reason, Refusal};
use shape::Shape;

// The new number of each device, and how many are kept.
#[derive(Clone, Copy)]
struct Numbering {
    numbers: [u8; model::MAX_DEVICES],
    count: usize,
}

// A device's new number is the number of claimed devices before it.
fn number_devices(devices: usize, claimed: &[bool; model::MAX_DEVICES]) -> Numbering
    requires { devices ≤ 16 }
    ensures { Numbers devices claimed.now result }
{
    let mut numbers = [0u8; model::MAX_DEVICES];
    let mut count: u8 = 0;
    for d in 0..devices {
        numbers[d] = count;
        count += claimed[d] as u8;
    }
    Numbering {
        numbers,
        count: count as usize,
    }
}

// Writes the cleaned set, and answers how many words it has.
fn write_set(
    words: &[u32],
    shape: Shape,
    claimed: [bool; model::MAX_DEVICES],
    numbers: [u8; model::MAX_DEVICES],
    slice: &mut [u32],
) -> usize
    requires accepted { Accepted words.now shape claimed }
    requires numbers_are { NumbersAre shape.devices claimed numbers }
    requires words_in_bounds { length (clean_words words.now) ≤ length slice.old }
    ensures value { result ≡ length (clean_words words.now) }
    ensures slice_after { slice.new ≡ over (clean_words words.now) slice.old }
{
    let devices = shape.devices;
    let end = words.len() - 1;
    let tasks = set_writer::write_devices(devices, &shape.capacities, &claimed, slice, 0);
    let last = set_writer::write_tasks(&words[devices..end], &numbers, slice, tasks);
    set_writer::write_end(slice, last)
}

// The cleaned set of words that the former rules accept: 25 where the slice is too short for it, before anything is written.
fn clean_set(
    words: &[u32],
    shape: Shape,
    claimed: [bool; model::MAX_DEVICES],
    slice: &mut [u32],
) -> Result<usize, Refusal>
    requires { Accepted words.now shape claimed }
    ensures { cleaned_of result slice.new ≡ model.clean words.now slice.old }
{
    let numbered = number_devices(shape.devices, &claimed);
    let needed = words.len() - (shape.devices - numbered.count);
    if slice.len() < needed {
        return Err(Reason::CleanTooShort.at(needed));
    }
    Ok(write_set(words, shape, claimed, numbered.numbers, slice))
}

// Cleans the set that the words declare by the former rules, into a lent slice.
pub fn clean(words: &[u32], slice: &mut [u32]) -> Result<usize, Refusal>
    ensures { cleaned_of result slice.new ≡ model.clean words.now slice.old }
{
    let reading = reader::read(words, Rules::Former)?;
    clean_set(words, reading.shape, reading.claimed, slice)
}
