// Example g as sets like it were stored before a device that no task claims was refused: what every call says of it, and what the cleaner makes of it.
use crate::lines::{UNTOUCHED, again_line, analyse_line, bid_line, route_line};
use crate::sets;
use console::Counted;
use records::Record;
use std::fmt;
use std::io::Result;

// What a slice of words holds before a cleaning; no word of a set.
pub const BLANK: u32 = 9;

// The cleaned set's words, and one too few for them.
const CLEANED: usize = 2;

const TOO_FEW: usize = CLEANED - 1;

// Refused by every call that reads it.
pub fn refused(rt: &impl Print) -> Result<()> {
    let words = sets::OLD_G;
    let start = Record::fresh();
    let mut map = [UNTOUCHED; 1];
    analyse_line(rt, "g as it was", &words, &mut map)?;
    bid_line(rt, &words, &map, start, 0)?;
    again_line(rt, &words, start)?;
    route_line(rt, &words, &map, start, &mut [UNTOUCHED; 2])
}

// Through the cleaner, with a slice that is too short, longer and exact; and then accepted.
pub fn cleaned(rt: &impl Print) -> Result<()> {
    let words = sets::OLD_G;
    clean_line(rt, "g as it was", &words, &mut [BLANK; TOO_FEW])?;
    clean_line(
        rt,
        "g as it was",
        &words,
        &mut [BLANK; sets::WORDS_OF_OLD_G],
    )?;
    let mut exact = [BLANK; CLEANED];
    clean_line(rt, "g as it was", &words, &mut exact)?;
    analyse_line(rt, "g as it was, cleaned", &exact, &mut [UNTOUCHED; 1])
}

// Clean sets come back as they are, and words that were refused before are refused as before.
pub fn others(rt: &impl Print) -> Result<()> {
    clean_line(rt, "g", &sets::G, &mut [BLANK; sets::WORDS_OF_G])?;
    clean_line(rt, "f", &sets::F, &mut [BLANK; CLEANED])?;
    clean_line(rt, "i", &[0x2000_0000], &mut [BLANK; CLEANED])
}

// A cleaning, and its slice afterwards.
pub fn clean_line(rt: &impl Print, label: &str, words: &[u32], slice: &mut [u32]) -> Result<()> {
    let count = cleaner::clean(words, slice);
    println!(rt;
        "{label} through the cleaner: {}, slice{}",
        Counted("cleaned", count),
        Words(slice)
    )
}

// The words of a slice.
#[derive(Clone, Copy)]
struct Words<'a>(&'a [u32]);

impl fmt::Display for Words<'_> {
    fn fmt<W: fmt::Write>(&self, f: &mut fmt::Formatter<W>) -> fmt::Result {
        for word in self.0 {
            write!(f, " {word:08X}")?;
        }
        Ok(())
    }
}
