// What C sees of the arbiter: each export hands its call on to the crate `arbiter`, with the same clauses. It is built as the static library that hosts link.
#![tactic(auto)]

ghost use Rattle.std.specs.Prelude.{◌≡◌};
ghost use Rattle.model.specs.Read.{read};
ghost use Rattle.model.specs.Analysis.{analyse};
ghost use Rattle.model.specs.Record.{fresh};
ghost use Rattle.model.specs.Broker.{bid, again};
ghost use Rattle.model.specs.Route.{route};
ghost use Rattle.model.specs.StoredPlan.{locate};
ghost use Rattle.model.specs.Clean as model-clean;
ghost use Rattle.model.specs.Trial as model-trial;
ghost use Rattle.model.specs.Told.{VERSION, tell_reading, tell_bid, tell_again, tell_location, tell_trial};
ghost use Rattle.records.specs.Says.{record_of};
ghost use Rattle.arbiter.specs.Told.{struct_of, trial_struct, ToldAnalysis, ToldServed, ToldRoute, ToldCleaned};

use arbiter::{Analysis, Answer, State, Trial};
use records::Record;

// The library's own version, for a host to compare with that of the header or package it was built with: structs and numbers may differ between versions.
#[unsafe(no_mangle)]
pub extern "C" fn arbiter_version() -> u32
    ensures { result ≡ VERSION }
{
    arbiter::arbiter_version()
}

// Reads a set: accepted with its grid, so that a host knows how long its map will be, or a refusal of the set.
#[unsafe(no_mangle)]
pub extern "C" fn arbiter_read(set: &[u32]) -> Answer
    ensures { result ≡ struct_of (tell_reading (read set.now)) }
{
    arbiter::arbiter_read(set)
}

// The analysis of a set into a map and a plan.
#[unsafe(no_mangle)]
pub extern "C" fn arbiter_analyse(set: &[u32], map: &mut [u8], plan: &mut [u32]) -> Analysis
    ensures { ToldAnalysis result map.new plan.new (analyse set.now map.old plan.old) }
{
    arbiter::arbiter_analyse(set, map, plan)
}

// The record that a service starts with.
#[unsafe(no_mangle)]
pub extern "C" fn arbiter_fresh() -> Record
    ensures { record_of result ≡ fresh }
{
    arbiter::arbiter_fresh()
}

// A bid of a task on the host's record, with the settings share and window.
#[unsafe(no_mangle)]
pub extern "C" fn arbiter_bid(
    rec: &mut Record,
    set: &[u32],
    map: &[u8],
    task: usize,
    share: u32,
    window: u32,
) -> Answer
    ensures { ToldServed tell_bid result (record_of rec.new)
        (bid set.now map.now (record { share = share; window = window }) (record_of rec.old) task) }
{
    arbiter::arbiter_bid(rec, set, map, task, share, window)
}

// Again on the host's record.
#[unsafe(no_mangle)]
pub extern "C" fn arbiter_again(rec: &mut Record, set: &[u32]) -> Answer
    ensures { ToldServed tell_again result (record_of rec.new) (again set.now (record_of rec.old)) }
{
    arbiter::arbiter_again(rec, set)
}

// The route from the state in a record.
#[unsafe(no_mangle)]
pub extern "C" fn arbiter_route(rec: Record, set: &[u32], map: &[u8], steps: &mut [u8]) -> Answer
    ensures { ToldRoute result steps.new (route set.now map.now (record_of rec) steps.old) }
{
    arbiter::arbiter_route(rec, set, map, steps)
}

// Where a state lies in a stored plan of so many tasks, without its set.
#[unsafe(no_mangle)]
pub extern "C" fn arbiter_locate(state: State, plan: &[u32], tasks: usize) -> Answer
    ensures { result ≡ struct_of (tell_location (locate state.positions plan.now tasks)) }
{
    arbiter::arbiter_locate(state, plan, tasks)
}

// A set without the devices that no task claims, read by the former rules.
#[unsafe(no_mangle)]
pub extern "C" fn arbiter_clean(set: &[u32], clean: &mut [u32]) -> Answer
    ensures { ToldCleaned result clean.new (model-clean.clean set.now clean.old) }
{
    arbiter::arbiter_clean(set, clean)
}

// A trial of the settings share and window: the order bids so many rounds on a fresh record, or until every task is finished. Nothing that is lent changes.
#[unsafe(no_mangle)]
pub extern "C" fn arbiter_trial(
    set: &[u32],
    map: &[u8],
    order: &[u8],
    rounds: u16,
    share: u32,
    window: u32,
) -> Trial
    ensures { result ≡ trial_struct (tell_trial
        (model-trial.trial set.now map.now order.now rounds (record { share = share; window = window }))) }
{
    arbiter::arbiter_trial(set, map, order, rounds, share, window)
}
