// A route: from the open state in a record to the end, one byte a step, always the smallest task whose step lands on an open state's byte.
#![tactic(auto)]

ghost use Rattle.std.specs.Prelude.{◌≡◌, cond, ltb, take};
ghost use Rattle.std.specs.Prelude.{Option, Some, None};
ghost use Rattle.model.specs.Answer.{refused};
ghost use Rattle.model.specs.Set.{size};
ghost use Rattle.model.specs.Route.{first_step, route_from, route_steps};
ghost use Rattle.model.specs.Route as model;
ghost use Rattle.shape.specs.SetOf.{set_of};
ghost use Rattle.refusals.specs.Answers.{number_of};
ghost use Rattle.records.specs.Says.{record_of};
ghost use Rattle.route.specs.Says.{routed_of};
ghost use Rattle.route.specs.Walks.{OnGrid, WalkDone, fitted};

use records::Record;
use refusals::{Reason, Refusal};
use shape::{AcceptedSet, Shape};

// What a refused route leaves in every byte of its slice.
pub const NO_STEP: u8 = 255;

// Where a walk stops: after how many steps, and at which rank.
#[derive(Clone, Copy)]
struct Stop {
    steps: usize,
    rank: usize,
}

fn refuse(refusal: Refusal, slice: &mut [u8]) -> Result<usize, Refusal>
    ensures { routed_of result slice.new ≡ fitted (refused (number_of refusal.reason) refusal.place) slice.old }
{
    slice.fill(NO_STEP);
    Err(refusal)
}

// The smallest task whose step from a state of this rank lands on an open byte.
// It is called once a step, so it takes the arrays that it reads and no whole shape. A struct that holds them and states `OnGrid` would be made anew at each
// step.
fn first_step(
    map: &[u8],
    tasks: usize,
    lengths: [u8; model::MAX_TASKS],
    weights: [usize; model::MAX_TASKS],
    positions: [u8; model::MAX_TASKS],
    rank: usize,
) -> Option<usize>
    requires { OnGrid map.now tasks lengths weights positions rank }
    ensures { let t = first_step (take tasks lengths) map.now (take tasks positions) in result ≡ cond (ltb t tasks) (Some t) None }
{
    for t in 0..tasks {
        if positions[t] < lengths[t] && map[rank + weights[t]] == Record::OPEN {
            return Some(t);
        }
    }
    None
}

// Walks as far as there are steps, and writes those that the slice has room for. It takes the arrays that `first_step` takes of it.
fn walk(
    map: &[u8],
    tasks: usize,
    lengths: [u8; model::MAX_TASKS],
    weights: [usize; model::MAX_TASKS],
    start: [u8; model::MAX_TASKS],
    rank: usize,
    slice: &mut [u8],
) -> Stop
    requires { OnGrid map.now tasks lengths weights start rank }
    ensures { WalkDone (take tasks lengths) map.now (take tasks start) slice.old result slice.new }
{
    let mut positions = start;
    let mut here = rank;
    let mut steps = 0;
    while let Some(t) = first_step(map, tasks, lengths, weights, positions, here) {
        if steps < slice.len() {
            slice[steps] = t as u8;
        }
        positions[t] += 1;
        here += weights[t];
        steps += 1;
    }
    Stop { steps, rank: here }
}

// The route from a state whose byte is open. The state of the last rank is the end.
fn route_from(
    map: &[u8],
    shape: Shape,
    rec: Record,
    rank: usize,
    slice: &mut [u8],
) -> Result<usize, Refusal>
    requires { OnGrid map.now shape.tasks shape.lengths shape.weights rec.positions rank
        × (shape.grid ≡ size (take shape.tasks shape.lengths)) }
    ensures { routed_of result slice.new
        ≡ fitted (route_from (take shape.tasks shape.lengths) map.now (take shape.tasks rec.positions)) slice.old }
{
    let stop = walk(
        map,
        shape.tasks,
        shape.lengths,
        shape.weights,
        rec.positions,
        rank,
        slice,
    );
    if stop.rank + 1 < shape.grid {
        return refuse(Reason::BadMapByte.at(stop.rank), slice);
    }
    if slice.len() < stop.steps {
        return refuse(Reason::RouteTooShort.at(stop.steps), slice);
    }
    Ok(stop.steps)
}

// The route on an accepted set: first the map's length, the record and its own byte.
fn route_on(set: &AcceptedSet, map: &[u8], rec: Record, slice: &mut [u8]) -> Result<usize, Refusal>
    ensures { routed_of result slice.new ≡ fitted (route_steps (set_of set.now) map.now (record_of rec)) slice.old }
{
    if records::too_short(map, set.shape) {
        return refuse(Reason::MapTooShort.at(set.shape.grid), slice);
    }
    if records::unfit(rec, set.shape) {
        return refuse(Reason::BadRecord.at(0), slice);
    }
    let rank = records::rank_of(rec, set.shape);
    match map[rank] {
        Record::OPEN => route_from(map, set.shape, rec, rank, slice),
        Record::FORBIDDEN => refuse(Reason::BadRecord.at(0), slice),
        Record::UNSAFE | Record::DEAD => refuse(Reason::NoRoute.at(rank), slice),
        _ => refuse(Reason::BadMapByte.at(rank), slice),
    }
}

// The route from the state in a record: words, map and slice are lent.
pub fn route(words: &[u32], map: &[u8], rec: Record, slice: &mut [u8]) -> Result<usize, Refusal>
    ensures { routed_of result slice.new ≡ model.route words.now map.now (record_of rec) slice.old }
{
    match reader::accept(words) {
        Ok(set) => route_on(&set, map, rec, slice),
        Err(refusal) => refuse(refusal, slice),
    }
}
