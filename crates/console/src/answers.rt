// The answers of the calls as text.
use analysis::Planned;
use broker::Bid;
use plan_reader::Location;
use refusals::Refusal;
use std::fmt;
use trial::{Tally, Tried};

// What a call answered.
#[derive(Clone, Copy)]
pub struct Said<A>(pub Result<A, Refusal>);

impl fmt::Display for Said<Planned> {
    fn fmt<W: fmt::Write>(&self, f: &mut fmt::Formatter<W>) -> fmt::Result {
        match self.0 {
            // The plan's words, and the parts per thousand.
            Ok(
                Planned {
                    words,
                    quotient,
                    remainder,
                },
            ) => write!(
                f,
                "planned {words}, unsafe {quotient}/1000 rest {remainder}"
            ),
            Err(refusal) => write!(f, "{refusal}"),
        }
    }
}

impl fmt::Display for Said<Bid> {
    fn fmt<W: fmt::Write>(&self, f: &mut fmt::Formatter<W>) -> fmt::Result {
        match self.0 {
            Ok(Bid::Granted) => f.write_str("granted"),
            Ok(Bid::Finished) => f.write_str("finished"),
            Ok(Bid::ShareSpent) => f.write_str("share spent"),
            Ok(Bid::Busy { device }) => write!(f, "busy {device}"),
            Ok(Bid::Held { rank }) => write!(f, "held {rank}"),
            Err(refusal) => write!(f, "{refusal}"),
        }
    }
}

// An again's answer.
impl fmt::Display for Said<()> {
    fn fmt<W: fmt::Write>(&self, f: &mut fmt::Formatter<W>) -> fmt::Result {
        match self.0 {
            Ok(()) => f.write_str("restarted"),
            Err(refusal) => write!(f, "{refusal}"),
        }
    }
}

// What a question to a stored plan was answered.
impl fmt::Display for Said<Location> {
    fn fmt<W: fmt::Write>(&self, f: &mut fmt::Formatter<W>) -> fmt::Result {
        match self.0 {
            Ok(Location::Forbidden { index }) => write!(f, "forbidden {index}"),
            Ok(Location::Unsafe { index }) => write!(f, "unsafe {index}"),
            Ok(Location::Neither) => f.write_str("neither"),
            Err(refusal) => write!(f, "{refusal}"),
        }
    }
}

// A trial's answer, without its rows.
impl fmt::Display for Said<Tried> {
    fn fmt<W: fmt::Write>(&self, f: &mut fmt::Formatter<W>) -> fmt::Result {
        match self.0 {
            Ok(Tried { made, .. }) => write!(f, "tried {made}"),
            Err(refusal) => write!(f, "{refusal}"),
        }
    }
}

// What a call answered whose answer is a number, behind a word for it.
#[derive(Clone, Copy)]
pub struct Counted<'a>(pub &'a str, pub Result<usize, Refusal>);

impl fmt::Display for Counted<'_> {
    fn fmt<W: fmt::Write>(&self, f: &mut fmt::Formatter<W>) -> fmt::Result {
        match self.1 {
            Ok(number) => write!(f, "{} {number}", self.0),
            Err(refusal) => write!(f, "{refusal}"),
        }
    }
}

// Rows of a trial, a task's each.
#[derive(Clone, Copy)]
pub struct Rows<'a>(pub &'a [Tally]);

impl fmt::Display for Rows<'_> {
    fn fmt<W: fmt::Write>(&self, f: &mut fmt::Formatter<W>) -> fmt::Result {
        for row in self.0 {
            let Tally {
                granted,
                busy,
                held,
                share_spent,
            } = *row;
            write!(f, " [{granted} {busy} {held} {share_spent}]")?;
        }
        Ok(())
    }
}

// What was tried: no bid where the trial was refused.
pub fn tallies(said: Result<Tried, Refusal>) -> Tried {
    match said {
        Ok(tried) => tried,
        Err(_) => Tried {
            made: 0,
            rows: [Tally::default(); model::MAX_TASKS],
            finished: 0,
        },
    }
}
