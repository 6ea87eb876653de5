// The words of a set, written into a lent slice one part after the other: DEVICEs, words of another set as they are, tasks with other numbers for the devices,
// END. For the calls that make a set out of sets; each part is written from an index on, and answers the index after it.
// The slice and the index stay two parameters: memory is fixed, so the slice is the caller's, and a struct that held it would owe clauses about the reference at each call.
#![tactic(auto)]

ghost use Rattle.std.specs.Prelude.{◌≡◌, true, false, cond, [], ◌∷◌, map, ◌+◌, ◌<◌, ◌≤◌, length, get_or, take, set};
ghost use Rattle.model.specs.Below.{how_many};
ghost use Rattle.model.specs.Slice.{write};
ghost use Rattle.model.specs.Set.{at};
ghost use Rattle.model.specs.Layout.{word, DEVICE, END};
ghost use Rattle.model.specs.Clean.{kept_from};
ghost use Rattle.set_writer.specs.Renamed.{renamed_word, Named};

use set_words::Kind;

// The DEVICEs of those of the first so many devices that are kept, in their order.
pub fn write_devices(
    devices: usize,
    capacities: &[u8; model::MAX_DEVICES],
    kept: &[bool; model::MAX_DEVICES],
    out: &mut [u32],
    to: usize,
) -> usize
    requires devices_bound { devices ≤ 16 }
    requires capacities_len { (length capacities.now ≡ 16) × (length kept.now ≡ 16) }
    requires false_in_bounds { to + how_many devices (λ d. get_or kept.now d false) ≤ length out.old }
    ensures value { result ≡ to + how_many devices (λ d. get_or kept.now d false) }
    ensures out_after { out.new
        ≡ write out.old to (map (word DEVICE) (kept_from (λ d. get_or kept.now d false) 0 (take devices capacities.now))) }
{
    let mut at = to;
    for d in 0..devices {
        at = write_kept(kept[d], capacities[d], out, at);
    }
    at
}

// The DEVICE of one device, if it is kept.
fn write_kept(kept: bool, capacity: u8, out: &mut [u32], to: usize) -> usize
    requires { kept ≡ true → to < length out.old }
    ensures value { result ≡ to + cond kept 1 0 }
    ensures out_after { out.new ≡ cond kept (set out.old to (word DEVICE capacity)) out.old }
{
    if !kept {
        return to;
    }
    out[to] = set_words::declared(capacity);
    to + 1
}

// Words that stay as they are.
pub fn write_words(words: &[u32], out: &mut [u32], to: usize) -> usize
    requires { to + length words.now ≤ length out.old }
    ensures value { result ≡ to + length words.now }
    ensures out_after { out.new ≡ write out.old to words.now }
{
    let end = to + words.len();
    out[to..end].copy_from_slice(words);
    end
}

// The words of tasks, with the number that `numbers` has for each device.
pub fn write_tasks(
    tasks: &[u32],
    numbers: &[u8; model::MAX_DEVICES],
    out: &mut [u32],
    to: usize,
) -> usize
    requires named { Named tasks.now }
    requires numbers_len { length numbers.now ≡ 16 }
    requires tasks_in_bounds { to + length tasks.now ≤ length out.old }
    ensures value { result ≡ to + length tasks.now }
    ensures out_after { out.new ≡ write out.old to (map (renamed_word (at numbers.now)) tasks.now) }
{
    for (i, &word) in tasks.iter().enumerate() {
        out[to + i] = renamed(word, numbers);
    }
    to + tasks.len()
}

// A task's word with the number that `numbers` has for its device; a TASK has none.
fn renamed(word: u32, numbers: &[u8; model::MAX_DEVICES]) -> u32
    requires named { Named (word ∷ []) }
    requires numbers_len { length numbers.now ≡ 16 }
    ensures { result ≡ renamed_word (at numbers.now) word }
{
    if set_words::has_kind(word, Kind::Task) {
        return word;
    }
    set_words::with_device(word, numbers[set_words::device(word) as usize])
}

// END.
pub fn write_end(out: &mut [u32], to: usize) -> usize
    requires to_in_bounds { to < length out.old }
    requires to_bound { to < 268435456 }
    ensures value { result ≡ to + 1 }
    ensures out_after { out.new ≡ write out.old to (word END to ∷ []) }
{
    out[to] = set_words::end(to);
    to + 1
}
