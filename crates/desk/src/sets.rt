// The sets of examples a and d to k, word by word as SCOPE.md, "Desk examples", has them, and the analyses of those that no call is made on.
use crate::lines::{UNTOUCHED, analyse_line, map_line};
use std::io::Result;

pub const A: [u32; 13] = [
    0x1000_0001,
    0x1000_0001,
    0x2000_0000,
    0x3000_0000,
    0x3000_0001,
    0x4000_0001,
    0x4000_0000,
    0x2000_0000,
    0x3000_0001,
    0x3000_0000,
    0x4000_0000,
    0x4000_0001,
    0x5000_000C,
];

pub const GRID_OF_A: usize = 25;

pub const D: [u32; 18] = [
    0x1000_0001,
    0x1000_0001,
    0x1000_0001,
    0x2000_0000,
    0x3000_0002,
    0x3000_0000,
    0x4000_0002,
    0x3000_0001,
    0x4000_0001,
    0x4000_0000,
    0x2000_0000,
    0x3000_0001,
    0x3000_0002,
    0x4000_0002,
    0x3000_0000,
    0x4000_0000,
    0x4000_0001,
    0x5000_0011,
];

pub const GRID_OF_D: usize = 49;

pub const E: [u32; 11] = [
    0x1000_0002,
    0x2000_0000,
    0x3000_0000,
    0x4000_0000,
    0x2000_0000,
    0x3000_0000,
    0x4000_0000,
    0x2000_0000,
    0x3000_0000,
    0x4000_0000,
    0x5000_000A,
];

pub const GRID_OF_E: usize = 27;

pub const F: [u32; 2] = [0x2000_0000, 0x5000_0001];

pub const WORDS_OF_G: usize = 5;

pub const G: [u32; WORDS_OF_G] = [
    0x1000_0008,
    0x2000_0000,
    0x3000_0000,
    0x4000_0000,
    0x5000_0004,
];

pub const GRID_OF_G: usize = 3;

// Example g as it was before its device had to be claimed.
pub const WORDS_OF_OLD_G: usize = 3;

pub const OLD_G: [u32; WORDS_OF_OLD_G] = [0x1000_0008, 0x2000_0000, 0x5000_0002];

// Examples d and e.
pub fn mapped_sets(rt: &impl Print) -> Result<()> {
    map_line(rt, "d", &D, &mut [UNTOUCHED; GRID_OF_D])?;
    map_line(rt, "e", &E, &mut [UNTOUCHED; GRID_OF_E])
}

// Example a in a map slice as long as d's, full of dead states before: what stands behind the grid is left, and isn't counted.
pub fn longer_slice(rt: &impl Print) -> Result<()> {
    map_line(rt, "a in a slice of 49", &A, &mut [model::DEAD; GRID_OF_D])
}

// Examples f to k.
pub fn small_sets(rt: &impl Print) -> Result<()> {
    let mut map = [UNTOUCHED; GRID_OF_G];
    analyse_line(rt, "f", &F, &mut map)?;
    analyse_line(rt, "g", &G, &mut map)?;
    analyse_line(rt, "g, capacity 9", &[0x1000_0009], &mut map)?;
    analyse_line(rt, "h", &[0x3000_0000], &mut map)?;
    analyse_line(rt, "i", &[0x2000_0000], &mut map)?;
    analyse_line(
        rt,
        "j",
        &[0x1000_0001, 0x2000_0000, 0x3000_0000, 0x3000_0000],
        &mut map,
    )?;
    analyse_line(
        rt,
        "k",
        &[0x1000_0001, 0x2000_0000, 0x3000_0000, 0x5000_0003],
        &mut map,
    )
}
