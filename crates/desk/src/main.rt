// Calls of the desk examples and refusals (SCOPE.md, "Desk examples", "Refusals"), made by a running program: one line a fact, held to the file `stdout`.
#![tactic(auto)]

mod calls;
mod lines;
mod long;
mod questions;
mod sets;
mod shares;
mod stored;
mod trials;
mod units;

use console::Onward;
use std::io::Result;

// What can't be written is passed over: the calls are made to the last.
fn main(rt: HostRuntime) {
    let _ = make_all(&Onward { output: rt });
}

fn make_all(rt: &impl Print) -> Result<()> {
    let words = sets::A;
    let mut map = [lines::UNTOUCHED; sets::GRID_OF_A];
    lines::analyse_line(rt, "a", &words, &mut map)?;
    calls::on_a(rt, &words, &map)?;
    shares::on_a(rt, &words, &map)?;
    trials::on_a(rt, &words, &map)?;
    sets::mapped_sets(rt)?;
    sets::longer_slice(rt)?;
    sets::small_sets(rt)?;
    stored::refused(rt)?;
    stored::cleaned(rt)?;
    stored::others(rt)?;
    units::patch(rt)?;
    units::crossed(rt)?;
    units::refused(rt)?;
    units::cleaned(rt)?;
    questions::on_a(rt)?;
    questions::on_d(rt)?;
    questions::on_others(rt)?;
    long::two_long(rt)?;
    long::three_long(rt)
}
