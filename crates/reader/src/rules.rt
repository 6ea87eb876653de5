// The rules that a set keeps, one function each, with the refusal's number. The faults ask those of its words in order.
ghost use Rattle.std.specs.Prelude.{◌≡◌, false, not, cond, ◌&&◌, eqb, ltb, leb, get_or, ◌≤◌, None};
ghost use Rattle.std.specs.Bool.{beq};
ghost use Rattle.model.specs.Below.{any};
ghost use Rattle.reader.specs.Answer.{rules_of};
ghost use Rattle.reader.specs.Follow.{lowest_found};

// The rules that a set is read by, which say whether some task must claim each device: the present rules do, the former ones didn't. They are one function's
// switch, since a function for each cost every bid a copy of the reading.
#[derive(Clone, Copy, Debug, PartialEq, Eq)]
pub enum Rules {
    Present,
    Former,
}

// 5: a DEVICE after a TASK.
pub(crate) fn after_a_task(tasks: usize) -> bool
    ensures { result ≡ ltb 0 tasks }
{
    0 < tasks
}

// 5: a CLAIM, a RELEASE or an END before any TASK.
pub(crate) fn before_any_task(tasks: usize) -> bool
    ensures { result ≡ eqb tasks 0 }
{
    tasks == 0
}

// 6: the field of a DEVICE is a capacity.
pub(crate) fn capacity_allowed(field: u32) -> bool
    ensures { result ≡ (leb 1 field && leb field 8) }
{
    1 <= field && field <= model::MAX_CAPACITY
}

// 6: the field of a TASK is 0.
pub(crate) fn field_empty(field: u32) -> bool
    ensures { result ≡ eqb field 0 }
{
    field == 0
}

// 6: the field of a RELEASE, or of a CLAIM of one unit, is a declared device.
pub(crate) fn device_declared(field: u32, devices: usize) -> bool
    ensures { result ≡ ltb field devices }
{
    (field as usize) < devices
}

// 6: the field of a CLAIM has a declared device, and no bit above those of its units.
pub(crate) fn claim_allowed(field: u32, device: usize, devices: usize) -> bool
    ensures { result ≡ (ltb field 0x1000000 && ltb device devices) }
{
    field < model::CLAIM_FIELDS && device < devices
}

// 6: the field of an END is the number of words before it.
pub(crate) fn counts_words(field: u32, i: usize) -> bool
    ensures { result ≡ eqb field i }
{
    field as usize == i
}

// 7: the 17th device.
pub(crate) fn too_many_devices(devices: usize) -> bool
    ensures { result ≡ leb 16 devices }
{
    model::MAX_DEVICES <= devices
}

// 7: the 9th task.
pub(crate) fn too_many_tasks(tasks: usize) -> bool
    ensures { result ≡ leb 8 tasks }
{
    model::MAX_TASKS <= tasks
}

// 7: the 256th action of a task that has so many.
pub(crate) fn too_many_actions(length: usize) -> bool
    ensures { result ≡ leb 255 length }
{
    model::MAX_ACTIONS as usize <= length
}

// 28: a CLAIM of more units than a device of this capacity has.
pub(crate) fn too_many_units(units: u32, capacity: u8) -> bool
    ensures { result ≡ ltb capacity units }
{
    (capacity as u32) < units
}

// 8 and 9: a CLAIM of what the task holds, or a RELEASE of what it doesn't.
pub(crate) fn conflicts(held: bool, claim: bool) -> bool
    ensures { result ≡ beq held claim }
{
    held == claim
}

// 10: a task closed while it holds a device.
pub(crate) fn still_held(held: &[bool; model::MAX_DEVICES]) -> bool
    ensures { result ≡ any 16 (λ d. get_or held.now d false) }
{
    // `held.contains(&true)` was slower: this loop is one comparison of all sixteen.
    for d in 0..model::MAX_DEVICES {
        if held[d] {
            return true;
        }
    }
    false
}

// 24: the lowest of so many devices that isn't claimed, where the rules ask for claims.
pub(crate) fn unclaimed_device(
    rules: Rules,
    devices: usize,
    claimed: &[bool; model::MAX_DEVICES],
) -> Option<usize>
    requires { devices ≤ 16 }
    ensures { result ≡ cond (rules_of rules) (lowest_found devices (λ d. not (get_or claimed.now d false))) None }
{
    match rules {
        Rules::Present => first_unclaimed(devices, claimed),
        Rules::Former => None,
    }
}

// The lowest of so many devices that isn't claimed.
fn first_unclaimed(devices: usize, claimed: &[bool; model::MAX_DEVICES]) -> Option<usize>
    requires { devices ≤ 16 }
    ensures { result ≡ lowest_found devices (λ d. not (get_or claimed.now d false)) }
{
    for d in 0..devices {
        if !claimed[d] {
            return Some(d);
        }
    }
    None
}
