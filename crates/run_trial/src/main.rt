// The program `run_trial`: reads a set from standard input, tries a share and a window on it down an order of tasks, and prints a table of what the bids were
// answered, or the refusal (SCOPE.md, "Trial"). It only reads, calls and writes: what is tallied is `trial::trial`'s contract. Arguments that can't be taken, and
// a read or a write that fails, are told on standard error.
#![tactic(auto)]

mod arguments;
mod orders;
mod table;

use arguments::Wanted;
use program::Asked;
use reader::Rules;
use std::io::Result;
use trial::Tried;

// A byte for each state of the largest grid, and what stands there before the analysis: no byte of a map.
const MAP: usize = model::MAX_GRID as usize;

const NOT_ANALYSED: u8 = 0xFF;

const NAME: &str = "run_trial";

const HELP: &str =
    "usage: run_trial ORDER ROUNDS SHARE WINDOW < SETFILE\n\nReads a set from standard input, four bytes a word, the lowest first, and tries the settings SHARE and WINDOW on it:\nfrom a fresh broker the tasks bid down ORDER, round after round, until every task is finished or ROUNDS are over.\nPrints a row for each task, how many of its bids were granted, busy, held and share spent, then the bids answered\nFinished and all that were made; or one line 'refused N at P'.\n\n  ORDER       1 to 255 task numbers separated by commas, as 0,1,0,2\n  ROUNDS      0 to 65535\n  SHARE       1 to 255\n  WINDOW      1 to 255\n  --help      prints this\n  --version   prints the version\n\nA read or a write that fails is told on standard error. The exit status is 0 in every case: tools/trial.py\nruns this program and ends with 0 for a table, 1 for a refusal and 2 for a failure.\n";

fn main(rt: HostRuntime) {
    if arguments::are_complete(rt) {
        try_arguments(rt);
        return;
    }
    match program::read_arguments(rt) {
        Asked::Help => program::written(&rt, NAME, rt.print(HELP)),
        Asked::Version => program::written(&rt, NAME, program::print_version(&rt, NAME)),
        Asked::Work | Asked::Other => arguments::complain(
            &rt,
            "run_trial: it takes four arguments, it reads standard input: run_trial ORDER ROUNDS SHARE WINDOW < SETFILE",
        ),
    }
}

fn try_arguments(rt: HostRuntime) {
    let mut order = [0u8; orders::ROOM];
    let Some(count) = orders::read_order(rt, &mut order) else {
        return;
    };
    let Some(wanted) = arguments::read_wanted(rt) else {
        return;
    };
    try_file(rt, &order[..count], wanted);
}

fn try_file(rt: HostRuntime, order: &[u8], wanted: Wanted) {
    let mut bytes = [0u8; listing::INPUT];
    let mut words = [0u32; model::MAX_WORDS];
    match program::read_all(&mut rt.stdin(), &mut bytes) {
        Ok(count) => {
            let outcome = match listing::decode(&bytes[..count], &mut words) {
                Ok(count) => try_set(&rt, &words[..count], order, wanted),
                Err(refusal) => println!(rt; "{refusal}"),
            };
            program::written(&rt, NAME, outcome);
        }
        Err(failed) => program::unread(&rt, NAME, failed.error),
    }
}

// Tries a set's words. No plan is asked for, so the analysis has no room for one: the map it makes all the same. A set that it refuses the trial refuses alike.
fn try_set(rt: &impl Print, words: &[u32], order: &[u8], wanted: Wanted) -> Result<()> {
    let Wanted { rounds, settings } = wanted;
    let mut map = [NOT_ANALYSED; MAP];
    let _ = analysis::analyse(words, &mut map, &mut []);
    match trial::trial(words, &map, order, rounds, settings) {
        Ok(tried) => {
            table::print_asked(rt, order.len(), rounds, settings)?;
            print_tried(rt, words, tried)
        }
        Err(refusal) => println!(rt; "{refusal}"),
    }
}

// The rows of the set's tasks, and the sums.
fn print_tried(rt: &impl Print, words: &[u32], tried: Tried) -> Result<()> {
    let Tried {
        made,
        rows,
        finished,
    } = tried;
    let Ok(reading) = reader::read(words, Rules::Present) else {
        return Ok(());
    };
    let shape = reading.shape;
    table::print_rows(rt, shape, rows)?;
    table::print_sums(rt, finished, made, table::all_finished(shape, rows))
}
