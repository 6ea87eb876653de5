// A case as its calls are made, in order, on the record, the map and the plan as they stand.
use crate::calls::{CALL_WORDS, Call};
use crate::rounds::play_rounds;
use crate::text::{After, ROW, Steps};
use crate::{lent, questions, sets, text, trials};
use broker::{Bid, Served};
use console::{Counted, Said};
use records::Record;
use std::io::Result;

// The longest route slice: one that a line shows whole.
const MAX_ROUTE: usize = ROW;

// What the calls go on with beside the slices: how many words the set has, how much of the map is lent, how much of the plan slice is the stored plan, how much of its
// own slice the order is, and the record. The slices are no fields: of several that a struct lends for writing the check proves nothing.
#[derive(Clone, Copy)]
struct Play {
    words: usize,
    lent: usize,
    kept: usize,
    ordered: usize,
    rec: Record,
}

pub fn make_calls(
    rt: &impl Print,
    set: &mut [u32],
    words: usize,
    list: &[u32],
    map: &mut [u8],
    plan: &mut [u32],
    order: &mut [u8],
) -> Result<()> {
    let mut play = Play {
        words,
        lent: map.len(),
        kept: plan.len(),
        ordered: 0,
        rec: Record::fresh(),
    };
    for call in list.chunks_exact(CALL_WORDS) {
        if let [kind, a, b, c] = call {
            let call = Call::of(*kind, *a, *b, *c);
            make_call(rt, set, map, plan, order, &mut play, call)?;
        }
    }
    Ok(())
}

fn make_call(
    rt: &impl Print,
    set: &mut [u32],
    map: &mut [u8],
    plan: &mut [u32],
    order: &mut [u8],
    play: &mut Play,
    call: Call,
) -> Result<()> {
    match call {
        Call::Record(rec) => play.rec = rec,
        Call::Counts(counts) => play.rec.counts = counts,
        Call::Lend { length } => play.lent = length,
        Call::Keep { length } => play.kept = length,
        Call::Order { length } => play.ordered = length,
        Call::Poke { rank, byte } => put(map, rank, byte),
        Call::Store { index, word } => put(plan, index, word),
        Call::Place { at, tasks } => trials::place(order, at, tasks),
        Call::Analyse => sets::analyse_set(rt, first(set, play.words), map, plan)?,
        Call::Clean { length } => play.words = sets::clean_set(rt, set, play.words, length)?,
        _ => {
            let words = first(set, play.words);
            let map = first(map, play.lent);
            let plan = first(plan, play.kept);
            let order = first(order, play.ordered);
            play.rec = ask(rt, words, map, plan, order, play.rec, call)?;
        }
    }
    Ok(())
}

// Makes a call that changes at most the record, and answers the record after it.
fn ask(
    rt: &impl Print,
    words: &[u32],
    map: &[u8],
    plan: &[u32],
    order: &[u8],
    rec: Record,
    call: Call,
) -> Result<Record> {
    match call {
        Call::Bid { task, settings } => {
            return show_bid(rt, broker::bid(words, map, rec, task, settings));
        }
        Call::BidInPlace { task, settings } => {
            let said = lent::bid(words, map, rec, task, settings);
            return show_bid(rt, said);
        }
        Call::Again => return show_again(rt, words, rec),
        Call::Rounds { times, bids } => return play_rounds(rt, words, map, rec, times, bids),
        Call::Route { length } => show_route(rt, words, map, rec, length)?,
        Call::Locate { tasks, state } => questions::locate(rt, plan, tasks, state)?,
        Call::Sweep { tasks, last } => questions::sweep(rt, plan, tasks, last)?,
        Call::Trial { rounds, settings } => {
            trials::show_trial(rt, words, map, order, rounds, settings)?;
        }
        _ => {}
    }
    Ok(rec)
}

// The first items of a slice, as many as it has.
pub fn first<T>(slice: &[T], count: usize) -> &[T] {
    &slice[..count.min(slice.len())]
}

// Replaces an item, if there is one at this place.
fn put<T: Copy>(slice: &mut [T], place: usize, item: T) {
    if let Some(old) = slice.get_mut(place) {
        *old = item;
    }
}

fn show_bid(rt: &impl Print, said: Served<Bid>) -> Result<Record> {
    println!(rt; "{}{}", Said(said.answer), After(said.after))?;
    Ok(said.after)
}

fn show_again(rt: &impl Print, words: &[u32], rec: Record) -> Result<Record> {
    let said = broker::again(words, rec);
    println!(rt; "{}{}", Said(said.answer), After(said.after))?;
    Ok(said.after)
}

fn show_route(
    rt: &impl Print,
    words: &[u32],
    map: &[u8],
    rec: Record,
    length: usize,
) -> Result<()> {
    let mut steps = [text::FILL; MAX_ROUTE];
    let n = length.min(MAX_ROUTE);
    let count = route::route(words, map, rec, &mut steps[..n]);
    println!(rt; "{}:{}", Counted("routed", count), Steps(&steps[..n]))
}
