// The fault that a word brings, by its kind: the first rule that it breaks, if it breaks any.
// Here alone the rules have their reasons and their order, for words in a row and for a single word.
ghost use Rattle.std.specs.Prelude.{◌≡◌, ◌≤◌};
ghost use Rattle.model.specs.Layout.{kind_of, field_of};
ghost use Rattle.reader.specs.Faults.{fault_number, device_fault, task_fault, held_fault, units_fault, action_fault, end_fault, word_fault};

use crate::rules;
use crate::scan::Scan;
use refusals::Reason;
use set_words::Kind;

// DEVICE, after so many devices and tasks.
pub(crate) fn device_fault(devices: usize, tasks: usize, field: u32) -> Option<Reason>
    ensures { fault_number result ≡ device_fault devices tasks field }
{
    if rules::after_a_task(tasks) {
        return Some(Reason::OutOfOrder);
    }
    if !rules::capacity_allowed(field) {
        return Some(Reason::FieldNotAllowed);
    }
    if rules::too_many_devices(devices) {
        return Some(Reason::TooMany);
    }
    None
}

// TASK, after so many tasks, the last of which holds these devices.
pub(crate) fn task_fault(
    tasks: usize,
    held: &[bool; model::MAX_DEVICES],
    field: u32,
) -> Option<Reason>
    ensures { fault_number result ≡ task_fault tasks held.now field }
{
    if !rules::field_empty(field) {
        return Some(Reason::FieldNotAllowed);
    }
    if rules::too_many_tasks(tasks) {
        return Some(Reason::TooMany);
    }
    if rules::still_held(held) {
        return Some(Reason::StillHeld);
    }
    None
}

// CLAIM where claim, else RELEASE, in a task with so many actions.
pub(crate) fn action_fault(scan: &Scan, length: usize, claim: bool, field: u32) -> Option<Reason>
    requires { scan.now.devices ≤ 16 }
    ensures { fault_number result
        ≡ action_fault scan.now.devices scan.now.capacities scan.now.tasks length scan.now.held claim field }
{
    if rules::before_any_task(scan.tasks) {
        return Some(Reason::OutOfOrder);
    }
    if !rules::device_declared(field, scan.devices) {
        return units_fault(scan, length, claim, field);
    }
    // One unit every device has, so 28 can't come.
    if rules::too_many_actions(length) {
        return Some(Reason::TooMany);
    }
    held_fault(scan.held[field as usize], claim)
}

// The same where the field isn't a declared device alone, which it must be in a RELEASE.
fn units_fault(scan: &Scan, length: usize, claim: bool, field: u32) -> Option<Reason>
    requires { scan.now.devices ≤ 16 }
    ensures { fault_number result ≡ units_fault scan.now.devices scan.now.capacities length scan.now.held claim field }
{
    if !claim {
        return Some(Reason::FieldNotAllowed);
    }
    let device = set_words::device_bits(field) as usize;
    if !rules::claim_allowed(field, device, scan.devices) {
        return Some(Reason::FieldNotAllowed);
    }
    if rules::too_many_actions(length) {
        return Some(Reason::TooMany);
    }
    if rules::too_many_units(set_words::units(field), scan.capacities[device]) {
        return Some(Reason::TooManyUnits);
    }
    held_fault(scan.held[device], true)
}

// The last rule for an action, on a device that its task holds or not.
fn held_fault(held: bool, claim: bool) -> Option<Reason>
    ensures { fault_number result ≡ held_fault held claim }
{
    if !rules::conflicts(held, claim) {
        return None;
    }
    if claim {
        return Some(Reason::ClaimOfHeld);
    }
    Some(Reason::ReleaseOfNotHeld)
}

// END at index i.
fn end_fault(
    tasks: usize,
    i: usize,
    held: &[bool; model::MAX_DEVICES],
    field: u32,
) -> Option<Reason>
    ensures { fault_number result ≡ end_fault tasks i held.now field }
{
    if rules::before_any_task(tasks) {
        return Some(Reason::OutOfOrder);
    }
    if !rules::counts_words(field, i) {
        return Some(Reason::FieldNotAllowed);
    }
    if rules::still_held(held) {
        return Some(Reason::StillHeld);
    }
    None
}

// The word at index i, where no END came.
pub(crate) fn word_fault(scan: &Scan, i: usize, word: u32) -> Option<Reason>
    requires { (scan.now.devices ≤ 16) × (scan.now.tasks ≤ 8) }
    ensures { fault_number result ≡ word_fault scan.now i (kind_of word) (field_of word) }
{
    // The actions of the task opened last.
    let length = scan.lengths[scan.tasks.saturating_sub(1)] as usize;
    let field = set_words::field(word);
    let Some(kind) = set_words::named_kind(word) else {
        return Some(Reason::UnknownKind);
    };
    match kind {
        Kind::Device => device_fault(scan.devices, scan.tasks, field),
        Kind::Task => task_fault(scan.tasks, &scan.held, field),
        Kind::Claim => action_fault(scan, length, true, field),
        Kind::Release => action_fault(scan, length, false, field),
        Kind::End => end_fault(scan.tasks, i, &scan.held, field),
        Kind::ForbiddenBox
        | Kind::UnsafeBox
        | Kind::Side
        | Kind::DeadState
        | Kind::UnreachedState => Some(Reason::UnknownKind),
    }
}
