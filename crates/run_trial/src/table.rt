// What is printed: a table of fixed columns, so that two can stand side by side. Each function answers the error of a write that fails, and writes no more.
use broker::Settings;
use shape::Shape;
use std::io::Result;
use trial::Tally;

// What was asked for, and the columns' names.
pub fn print_asked(rt: &impl Print, order: usize, rounds: u16, settings: Settings) -> Result<()> {
    let Settings { share, window } = settings;
    println!(rt; "order of {order}, rounds {rounds}, share {share}, window {window}")?;
    println!(rt; "task  actions  granted      busy      held  share spent")
}

// A row for each task of the set.
pub fn print_rows(rt: &impl Print, shape: Shape, rows: [Tally; model::MAX_TASKS]) -> Result<()> {
    for t in 0..shape.tasks.min(model::MAX_TASKS) {
        print_row(rt, t, shape.lengths[t], rows[t])?;
    }
    Ok(())
}

// The widths have the blanks before each column among them; a tally has at most eight digits.
fn print_row(rt: &impl Print, task: usize, actions: u8, row: Tally) -> Result<()> {
    let Tally {
        granted,
        busy,
        held,
        share_spent,
    } = row;
    println!(rt; "{task:>4}{actions:>9}{granted:>9}{busy:>10}{held:>10}{share_spent:>13}")
}

// The bids answered Finished, and all that were made.
pub fn print_sums(rt: &impl Print, finished: u64, made: u32, all: bool) -> Result<()> {
    println!(rt; "bids answered Finished: {finished}")?;
    let ending = if all {
        "every task is finished"
    } else {
        "the rounds ran out"
    };
    println!(rt; "bids made: {made}, {ending}")
}

// Whether every task was granted all its actions.
pub fn all_finished(shape: Shape, rows: [Tally; model::MAX_TASKS]) -> bool {
    for t in 0..shape.tasks.min(model::MAX_TASKS) {
        if rows[t].granted != u32::from(shape.lengths[t]) {
            return false;
        }
    }
    true
}
