// The arbiter's calls for hosts in C, C++ and Rust (include/arbiter.h has them for C; `arbiter_c` exports them). Each hands its library call on, and no host owes
// it anything but the slices and the record themselves.
#![tactic(auto)]

mod answers;

ghost use Rattle.std.specs.Prelude.{◌≡◌};
ghost use Rattle.model.specs.Read.{read};
ghost use Rattle.model.specs.Analysis.{analyse};
ghost use Rattle.model.specs.Record.{fresh};
ghost use Rattle.model.specs.Broker.{bid, again};
ghost use Rattle.model.specs.Route.{route};
ghost use Rattle.model.specs.StoredPlan.{locate};
ghost use Rattle.model.specs.Clean as model-clean;
ghost use Rattle.model.specs.Trial as model-trial;
ghost use Rattle.model.specs.Told.{VERSION, tell_reading, tell_bid, tell_again, tell_location, tell_trial};
ghost use Rattle.records.specs.Says.{record_of};
ghost use Rattle.arbiter.specs.Told.{struct_of, trial_struct, ToldAnalysis, ToldServed, ToldRoute, ToldCleaned};

pub use answers::{Analysis, Answer, Kind, Trial};
use broker::Settings;
use reader::Rules;
use records::Record;

// The state that a plan is asked about: eight positions, those past the task count unread.
#[repr(C)]
#[derive(Clone, Copy)]
pub struct State {
    pub positions: [u8; model::MAX_TASKS],
}

// The library's own version, for a host to compare with that of the header or package it was built with: structs and numbers may differ between versions.
pub fn arbiter_version() -> u32
    ensures { result ≡ VERSION }
{
    model::VERSION
}

// Reads a set: accepted with its grid, so that a host knows how long its map will be, or a refusal of the set.
pub fn arbiter_read(set: &[u32]) -> Answer
    ensures { result ≡ struct_of (tell_reading (read set.now)) }
{
    answers::of_reading(reader::read(set, Rules::Present))
}

// The analysis of a set into a map and a plan.
pub fn arbiter_analyse(set: &[u32], map: &mut [u8], plan: &mut [u32]) -> Analysis
    ensures { ToldAnalysis result map.new plan.new (analyse set.now map.old plan.old) }
{
    answers::of_planned(analysis::analyse(set, map, plan))
}

// The record that a service starts with.
pub fn arbiter_fresh() -> Record
    ensures { record_of result ≡ fresh }
{
    Record::fresh()
}

// A bid of a task on the host's record, with the settings share and window.
pub fn arbiter_bid(
    rec: &mut Record,
    set: &[u32],
    map: &[u8],
    task: usize,
    share: u32,
    window: u32,
) -> Answer
    ensures { ToldServed tell_bid result (record_of rec.new)
        (bid set.now map.now (record { share = share; window = window }) (record_of rec.old) task) }
{
    let settings = Settings { share, window };
    answers::of_bid(broker::bid_in_place(rec, set, map, task, settings))
}

// Again on the host's record.
pub fn arbiter_again(rec: &mut Record, set: &[u32]) -> Answer
    ensures { ToldServed tell_again result (record_of rec.new) (again set.now (record_of rec.old)) }
{
    answers::of_again(broker::again_in_place(rec, set))
}

// The route from the state in a record.
pub fn arbiter_route(rec: Record, set: &[u32], map: &[u8], steps: &mut [u8]) -> Answer
    ensures { ToldRoute result steps.new (route set.now map.now (record_of rec) steps.old) }
{
    answers::of_count(Kind::Routed, route::route(set, map, rec, steps))
}

// Where a state lies in a stored plan of so many tasks, without its set.
pub fn arbiter_locate(state: State, plan: &[u32], tasks: usize) -> Answer
    ensures { result ≡ struct_of (tell_location (locate state.positions plan.now tasks)) }
{
    let positions = state.positions;
    answers::of_location(plan_reader::locate(positions, plan, tasks))
}

// A set without the devices that no task claims, read by the former rules.
pub fn arbiter_clean(set: &[u32], clean: &mut [u32]) -> Answer
    ensures { ToldCleaned result clean.new (model-clean.clean set.now clean.old) }
{
    answers::of_count(Kind::Cleaned, cleaner::clean(set, clean))
}

// A trial of the settings share and window: the order bids so many rounds on a fresh record, or until every task is finished. Nothing that is lent changes.
pub fn arbiter_trial(
    set: &[u32],
    map: &[u8],
    order: &[u8],
    rounds: u16,
    share: u32,
    window: u32,
) -> Trial
    ensures { result ≡ trial_struct (tell_trial
        (model-trial.trial set.now map.now order.now rounds (record { share = share; window = window }))) }
{
    let settings = Settings { share, window };
    answers::of_trial(trial::trial(set, map, order, rounds, settings))
}
