// Words in a row that have no fault: all but END, in a set without one. They are noted in a scan in its place, so that no word copies what was read before it.
ghost use Rattle.std.specs.Prelude.{◌≡◌, ◌-◌, ◌≤◌};
ghost use Rattle.model.specs.Set.{at};
ghost use Rattle.model.specs.Read.{nothing_read};
ghost use Rattle.reader.specs.Follow.{scan_of, Reached, counted, Opened, NoDevice, NoTask, NoAction, Stops};

use crate::faults;
use crate::scan::Scan;
use set_words::Kind;

// Notes the DEVICEs that the words start with, up to a word that is none or has a fault.
fn read_devices(words: &[u32], scan: &mut Scan)
    requires { Reached words.now scan.old 0 × (scan.old.devices ≡ 0) × (scan.old.tasks ≡ 0) }
    ensures { Reached words.now scan.new scan.new.devices × (scan.new.tasks ≡ 0) × NoDevice words.now scan.new.devices 0 scan.new.devices }
{
    for i in 0..words.len() {
        let word = words[i];
        if !set_words::has_kind(word, Kind::Device) {
            return;
        }
        let capacity = set_words::field(word);
        if faults::device_fault(i, 0, capacity).is_some() {
            return;
        }
        scan.capacities[i] = capacity as u8;
        scan.devices = i + 1;
    }
}

// Notes the CLAIMs and RELEASEs of the task just opened, from an index up to a word that is neither or has a fault: what the task then holds, and what is
// claimed. The answer is the index after them, from which the caller counts them.
fn read_actions(words: &[u32], from: usize, scan: &mut Scan) -> usize
    requires { Opened words.now scan.old from }
    ensures { (from ≤ result) × (result - from ≤ 255)
        × (scan.new ≡ record scan.old { held = scan.new.held; claimed = scan.new.claimed })
        × NoAction words.now scan.new.devices scan.new.capacities scan.new.tasks (result - from) scan.new.held result
        × Reached words.now (counted scan.new (result - from)) result }
{
    for i in from..words.len() {
        let word = words[i];
        let claim = set_words::has_kind(word, Kind::Claim);
        if !claim && !set_words::has_kind(word, Kind::Release) {
            return i;
        }
        let field = set_words::field(word);
        if faults::action_fault(scan, i - from, claim, field).is_some() {
            return i;
        }
        let device = set_words::device_bits(field) as usize;
        scan.held[device] = claim;
        // What a RELEASE without a fault names was claimed before.
        scan.claimed[device] = true;
    }
    words.len()
}

// Notes the tasks after the devices, each with its actions, up to a word that is none of theirs or has a fault. The answer is the index of that word.
fn read_tasks(words: &[u32], scan: &mut Scan) -> usize
    requires { Reached words.now scan.old scan.old.devices × (scan.old.tasks ≡ 0) }
    ensures { (scan.new.devices ≡ scan.old.devices) × (scan.new.tasks ≡ 0 → result ≡ scan.old.devices)
        × NoTask words.now scan.new.tasks scan.new.held result
        × NoAction words.now scan.new.devices scan.new.capacities scan.new.tasks (at scan.new.lengths (scan.new.tasks - 1)) scan.new.held result
        × Reached words.now scan.new result }
{
    let mut i = scan.devices;
    while i < words.len() {
        let word = words[i];
        if !set_words::has_kind(word, Kind::Task) {
            break;
        }
        if faults::task_fault(scan.tasks, &scan.held, set_words::field(word)).is_some() {
            break;
        }
        let task = scan.tasks;
        let first = i + 1;
        scan.starts[task] = first;
        scan.tasks = task + 1;
        i = read_actions(words, first, scan);
        scan.lengths[task] = (i - first) as u8;
    }
    i
}

// Notes devices and tasks, up to END or a fault. The answer is the index of the word there.
pub(crate) fn read_runs(words: &[u32], scan: &mut Scan) -> usize
    requires { Reached words.now scan.old 0 × (scan.old ≡ scan_of nothing_read) }
    ensures { Reached words.now scan.new result × Stops words.now scan.new result }
{
    read_devices(words, scan);
    read_tasks(words, scan)
}
