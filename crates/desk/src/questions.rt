// Questions to the stored plans of examples a, d, e, f and g, at every state.
use crate::lines::UNTOUCHED;
use crate::sets;
use console::{Said, UNREAD, state_at};
use plan_reader::Location;
use std::io::Result;

// The words of the plans, END among them.
const PLAN_OF_A: usize = 11;

const PLAN_OF_D: usize = 17;

const PLAN_OF_E: usize = 5;

const NO_END: usize = PLAN_OF_A - 1;

const ONE_MORE: usize = PLAN_OF_A + 1;

// Task counts that are too large; the second is 2 in 32 bits.
const NINE: usize = model::MAX_TASKS + 1;

const BEYOND: usize = 0x1_0000_0002;

// The last positions of the examples' tasks; f has one task, without actions.
const LAST_OF_A: [u8; model::MAX_TASKS] = [4, 4, 0, 0, 0, 0, 0, 0];

const LAST_OF_D: [u8; model::MAX_TASKS] = [6, 6, 0, 0, 0, 0, 0, 0];

const LAST_OF_E: [u8; model::MAX_TASKS] = [2, 2, 2, 0, 0, 0, 0, 0];

const LAST_OF_F: [u8; model::MAX_TASKS] = [0, 0, 0, 0, 0, 0, 0, 0];

const LAST_OF_G: [u8; model::MAX_TASKS] = [2, 0, 0, 0, 0, 0, 0, 0];

// The state of two tasks.
fn at_two(p: u8, q: u8) -> [u8; model::MAX_TASKS] {
    [p, q, UNREAD, UNREAD, UNREAD, UNREAD, UNREAD, UNREAD]
}

fn question_line(
    rt: &impl Print,
    label: &str,
    state: [u8; model::MAX_TASKS],
    plan: &[u32],
    tasks: usize,
) -> Result<()> {
    println!(rt;
        "{label}: {}",
        Said(plan_reader::locate(state, plan, tasks))
    )
}

// The states of so many tasks up to these positions, so many of them: `-` in no box, else `f` or `u` for the kind of the box, and its index.
fn states_line(
    rt: &impl Print,
    label: &str,
    plan: &[u32],
    tasks: usize,
    last: [u8; model::MAX_TASKS],
    states: usize,
) -> Result<()> {
    print!(rt; "{label} at every state:")?;
    for rank in 0..states {
        match plan_reader::locate(state_at(last, tasks, rank), plan, tasks) {
            Ok(Location::Forbidden { index }) => print!(rt; " f{index}")?,
            Ok(Location::Unsafe { index }) => print!(rt; " u{index}")?,
            Ok(Location::Neither) => rt.print(" -")?,
            Err(refusal) => print!(rt; " {refusal}")?,
        }
    }
    rt.print("\n")
}

// The plan of a at every state and at some by name, for wrong task counts, cut short and with a word more.
pub fn on_a(rt: &impl Print) -> Result<()> {
    let mut map = [UNTOUCHED; sets::GRID_OF_A];
    let mut plan = [0u32; PLAN_OF_A];
    let _ = analysis::analyse(&sets::A, &mut map, &mut plan);
    states_line(rt, "plan of a", &plan, 2, LAST_OF_A, sets::GRID_OF_A)?;
    states_of_a(rt, &plan)?;
    tasks_of_a(rt, &plan)?;
    let state = at_two(1, 1);
    question_line(rt, "plan of a without END", state, &plan[..NO_END], 2)?;
    question_line(rt, "plan of a, 8 words", state, &plan[..8], 2)?;
    question_line(rt, "plan of a, no words", state, &[], 2)?;
    let mut longer = [0u32; ONE_MORE];
    let _ = analysis::analyse(&sets::A, &mut map, &mut longer);
    longer[PLAN_OF_A] = 0x5000_000B;
    question_line(rt, "plan of a and END again", state, &longer, 2)
}

fn states_of_a(rt: &impl Print, plan: &[u32]) -> Result<()> {
    for (p, q) in [(2, 2), (2, 1), (1, 1), (1, 0), (255, 255)] {
        let said = plan_reader::locate(at_two(p, q), plan, 2);
        println!(rt; "plan of a at {p} {q}: {}", Said(said))?;
    }
    Ok(())
}

fn tasks_of_a(rt: &impl Print, plan: &[u32]) -> Result<()> {
    let state = at_two(1, 1);
    question_line(rt, "plan of a for three tasks", state, plan, 3)?;
    question_line(rt, "plan of a for one task", state, plan, 1)?;
    question_line(rt, "plan of a for no task", state, plan, 0)?;
    question_line(rt, "plan of a for nine tasks", state, plan, NINE)?;
    question_line(rt, "plan of a for 4294967298 tasks", state, plan, BEYOND)?;
    question_line(rt, "no words for nine tasks", state, &[], NINE)
}

// The plan of d, where unsafe boxes hold forbidden states.
pub fn on_d(rt: &impl Print) -> Result<()> {
    let mut map = [UNTOUCHED; sets::GRID_OF_D];
    let mut plan = [0u32; PLAN_OF_D];
    let _ = analysis::analyse(&sets::D, &mut map, &mut plan);
    states_line(rt, "plan of d", &plan, 2, LAST_OF_D, sets::GRID_OF_D)
}

// The plan of e, in which all three tasks may not hold the device, and those of f and g, which are END alone.
pub fn on_others(rt: &impl Print) -> Result<()> {
    let mut map = [UNTOUCHED; sets::GRID_OF_E];
    let mut plan = [0u32; PLAN_OF_E];
    let _ = analysis::analyse(&sets::E, &mut map, &mut plan);
    states_line(rt, "plan of e", &plan, 3, LAST_OF_E, sets::GRID_OF_E)?;
    let mut end = [0u32; 1];
    let _ = analysis::analyse(&sets::F, &mut map, &mut end);
    states_line(rt, "plan of f", &end, 1, LAST_OF_F, 1)?;
    let _ = analysis::analyse(&sets::G, &mut map, &mut end);
    states_line(rt, "plan of g", &end, 1, LAST_OF_G, sets::GRID_OF_G)
}
