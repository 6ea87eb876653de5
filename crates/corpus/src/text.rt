// Records and slices as they are printed.
use crate::sums::{bytes_sum, words_sum};
use records::Record;
use std::{fmt, str};

// What a slice of bytes is filled with before a call.
pub const FILL: u8 = 0xAA;

// Slices up to these lengths are printed whole, longer ones as a checksum.
const MAP_SHOWN: usize = 256;

const WORDS_SHOWN: usize = 32;

// The most bytes of a slice that a line shows.
pub const ROW: usize = 512;

// The record after a call: the eight positions, the grant number, and the eight counts unless all are 0.
#[derive(Clone, Copy)]
pub struct After(pub Record);

impl fmt::Display for After {
    fn fmt<W: fmt::Write>(&self, f: &mut fmt::Formatter<W>) -> fmt::Result {
        let Record {
            positions,
            grants,
            counts,
        } = self.0;
        write!(f, "{} {grants}", Eight(positions))?;
        if counts == [0; model::MAX_TASKS] {
            return Ok(());
        }
        write!(f, "{}", Eight(counts))
    }
}

// Eight numbers in brackets.
#[derive(Clone, Copy)]
struct Eight([u8; model::MAX_TASKS]);

impl fmt::Display for Eight {
    fn fmt<W: fmt::Write>(&self, f: &mut fmt::Formatter<W>) -> fmt::Result {
        let mut before = " [";
        for number in self.0 {
            write!(f, "{before}{number}")?;
            before = " ";
        }
        f.write_str("]")
    }
}

// A map, or its checksum.
#[derive(Clone, Copy)]
pub struct Map<'a>(pub &'a [u8]);

impl fmt::Display for Map<'_> {
    fn fmt<W: fmt::Write>(&self, f: &mut fmt::Formatter<W>) -> fmt::Result {
        if MAP_SHOWN < self.0.len() {
            return write!(f, "~{:08X}", bytes_sum(self.0));
        }
        write!(f, "{}", Steps(self.0))
    }
}

// What a sweep found at each state, or the checksum.
#[derive(Clone, Copy)]
pub struct Marks<'a>(pub &'a [u8]);

impl fmt::Display for Marks<'_> {
    fn fmt<W: fmt::Write>(&self, f: &mut fmt::Formatter<W>) -> fmt::Result {
        if ROW < self.0.len() {
            return write!(f, "~{:08X}", bytes_sum(self.0));
        }
        write!(f, "{}", Steps(self.0))
    }
}

// A character for each byte of a map, a route slice or a sweep.
#[derive(Clone, Copy)]
pub struct Steps<'a>(pub &'a [u8]);

impl fmt::Display for Steps<'_> {
    fn fmt<W: fmt::Write>(&self, f: &mut fmt::Formatter<W>) -> fmt::Result {
        // All together: one by one through the formatter they take four times as long.
        let shown = self.0.len().min(ROW);
        let row = characters(self.0);
        f.write_str(str::from_utf8(&row[..shown]).unwrap_or(""))
    }
}

// The characters of a slice's bytes, as many as a row has.
fn characters(slice: &[u8]) -> [u8; ROW] {
    let mut row = [0u8; ROW];
    for (place, byte) in row.iter_mut().zip(slice) {
        *place = character(*byte);
    }
    row
}

// A map's bytes and the tasks of steps are digits.
fn character(byte: u8) -> u8 {
    match byte {
        0..=7 => b'0' + byte,
        FILL => b'.',
        route::NO_STEP => b'x',
        _ => b'?',
    }
}

// The words of a plan or of a cleaned set's slice, or their checksum.
#[derive(Clone, Copy)]
pub struct Words<'a>(pub &'a [u32]);

impl fmt::Display for Words<'_> {
    fn fmt<W: fmt::Write>(&self, f: &mut fmt::Formatter<W>) -> fmt::Result {
        if WORDS_SHOWN < self.0.len() {
            return write!(f, " ~{:08X}", words_sum(self.0));
        }
        for word in self.0 {
            write!(f, " {word:08X}")?;
        }
        Ok(())
    }
}
