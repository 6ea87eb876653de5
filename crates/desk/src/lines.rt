// A call's line: its answer, and what it left of the slices and the record.
use broker::Settings;
use console::{Counted, Said};
use reader::Rules;
use records::Record;
use std::{fmt, io};

// What a slice holds before a call, to show what the call left alone; no byte of a map.
pub const UNTOUCHED: u8 = 9;

// The lengths of the plan slices: enough for the small examples, and for those whose map is shown.
const SMALL_PLAN: usize = 16;

const PLAN: usize = 32;

// What an analysis with this map slice and a small plan slice answers, and the first word of the plan slice afterwards.
pub fn analyse_line(rt: &impl Print, label: &str, words: &[u32], map: &mut [u8]) -> io::Result<()> {
    let mut plan = [0u32; SMALL_PLAN];
    let said = analysis::analyse(words, map, &mut plan);
    let first = plan[0];
    println!(rt; "{label}: {}, plan slice from {first:08X}", Said(said))
}

// The number of plan words, and the whole map.
pub fn map_line(rt: &impl Print, label: &str, words: &[u32], map: &mut [u8]) -> io::Result<()> {
    let said = analysis::analyse(words, map, &mut [0u32; PLAN]);
    println!(rt; "{label}: {}, map{}", Said(said), Bytes(map))
}

pub fn read_line(rt: &impl Print, label: &str, words: &[u32]) -> io::Result<()> {
    let grid = reader::read(words, Rules::Present).map(|reading| reading.shape.grid);
    println!(rt; "{label}: {}", Counted("grid", grid))
}

pub fn settings(share: u32, window: u32) -> Settings {
    Settings { share, window }
}

// The largest settings, with which no share is spent.
pub fn largest() -> Settings {
    settings(model::MAX_SETTING, model::MAX_SETTING)
}

// A bid with the largest settings, its answer, and the record after it.
pub fn bid_line(
    rt: &impl Print,
    words: &[u32],
    map: &[u8],
    rec: Record,
    task: usize,
) -> io::Result<Record> {
    let served = broker::bid(words, map, rec, task, largest());
    println!(rt; "bid {task}: {}{}", Said(served.answer), Left(served.after))?;
    Ok(served.after)
}

// Bids of these tasks, one after the other, and the record after them.
pub fn bid_lines(
    rt: &impl Print,
    words: &[u32],
    map: &[u8],
    rec: Record,
    tasks: &[usize],
) -> io::Result<Record> {
    let mut now = rec;
    for task in tasks {
        now = bid_line(rt, words, map, now, *task)?;
    }
    Ok(now)
}

// A bid with settings that are shown.
pub fn share_line(
    rt: &impl Print,
    words: &[u32],
    map: &[u8],
    rec: Record,
    task: usize,
    settings: Settings,
) -> io::Result<Record> {
    let Settings { share, window } = settings;
    let served = broker::bid(words, map, rec, task, settings);
    let answer = Said(served.answer);
    println!(rt;
        "bid {task}, share {share}, window {window}: {answer}{}",
        Left(served.after)
    )?;
    Ok(served.after)
}

// Bids of these tasks with the same settings, one after the other.
pub fn share_lines(
    rt: &impl Print,
    words: &[u32],
    map: &[u8],
    tasks: &[usize],
    settings: Settings,
) -> io::Result<()> {
    let mut now = Record::fresh();
    for task in tasks {
        now = share_line(rt, words, map, now, *task, settings)?;
    }
    Ok(())
}

pub fn again_line(rt: &impl Print, words: &[u32], rec: Record) -> io::Result<Record> {
    let served = broker::again(words, rec);
    println!(rt; "again: {}{}", Said(served.answer), Left(served.after))?;
    Ok(served.after)
}

// A route into a slice, and the slice afterwards.
pub fn route_line(
    rt: &impl Print,
    words: &[u32],
    map: &[u8],
    rec: Record,
    slice: &mut [u8],
) -> io::Result<()> {
    let steps = route::route(words, map, rec, slice);
    println!(rt; "route: {}, slice{}", Counted("steps", steps), Bytes(slice))
}

// The end of a line: the two tasks' positions in the record that is left, the grant number and the two tasks' counts.
#[derive(Clone, Copy)]
pub struct Left(pub Record);

impl fmt::Display for Left {
    fn fmt<W: fmt::Write>(&self, f: &mut fmt::Formatter<W>) -> fmt::Result {
        let Record {
            positions,
            grants,
            counts,
        } = self.0;
        let [p, q, ..] = positions;
        let [first, second, ..] = counts;
        write!(
            f,
            ", then at {p} {q}, number {grants}, counts {first} {second}"
        )
    }
}

// The numbers of a slice.
#[derive(Clone, Copy)]
struct Bytes<'a>(&'a [u8]);

impl fmt::Display for Bytes<'_> {
    fn fmt<W: fmt::Write>(&self, f: &mut fmt::Formatter<W>) -> fmt::Result {
        for byte in self.0 {
            write!(f, " {byte}")?;
        }
        Ok(())
    }
}
