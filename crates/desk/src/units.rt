// The radio patch (SCOPE.md, "Desk examples"), whose claims take several units of a gateway, and claims that take too many.
use crate::lines::{UNTOUCHED, analyse_line, bid_lines, map_line};
use crate::stored::{BLANK, clean_line};
use records::Record;
use std::io::Result;

// A gateway of capacity 3; tasks that take 2, 2 and 1 of its channels.
const PATCH: [u32; 11] = [
    0x1000_0003,
    0x2000_0000,
    0x3001_0000,
    0x4000_0000,
    0x2000_0000,
    0x3001_0000,
    0x4000_0000,
    0x2000_0000,
    0x3000_0000,
    0x4000_0000,
    0x5000_000A,
];

const GRID_OF_PATCH: usize = 27;

// Two tasks that each take two of three channels of two gateways, in opposite order.
const CROSSED: [u32; 13] = [
    0x1000_0003,
    0x1000_0003,
    0x2000_0000,
    0x3001_0000,
    0x3001_0001,
    0x4000_0001,
    0x4000_0000,
    0x2000_0000,
    0x3001_0001,
    0x3001_0000,
    0x4000_0000,
    0x4000_0001,
    0x5000_000C,
];

const GRID_OF_CROSSED: usize = 25;

// A device that no task claims before one that a task claims with three units.
const UNCLAIMED: [u32; 6] = [
    0x1000_0001,
    0x1000_0004,
    0x2000_0000,
    0x3002_0001,
    0x4000_0001,
    0x5000_0005,
];

const CLEANED: usize = 5;

// The patch: its map, and that Busy names the gateway and not its units.
pub fn patch(rt: &impl Print) -> Result<()> {
    let mut map = [UNTOUCHED; GRID_OF_PATCH];
    map_line(rt, "patch", &PATCH, &mut map)?;
    bid_lines(rt, &PATCH, &map, Record::fresh(), &[0, 1, 2])?;
    Ok(())
}

// Units that cross: what example a is with one unit.
pub fn crossed(rt: &impl Print) -> Result<()> {
    let mut map = [UNTOUCHED; GRID_OF_CROSSED];
    map_line(rt, "crossed", &CROSSED, &mut map)?;
    bid_lines(rt, &CROSSED, &map, Record::fresh(), &[0, 1, 0, 1])?;
    Ok(())
}

// Too many units, with those before them in the order of refusals; a release with units; a bit above them.
pub fn refused(rt: &impl Print) -> Result<()> {
    let mut map = [UNTOUCHED; 1];
    analyse_line(
        rt,
        "3 units of 2",
        &[0x1000_0002, 0x2000_0000, 0x3002_0000],
        &mut map,
    )?;
    analyse_line(
        rt,
        "256 units of 8",
        &[0x1000_0008, 0x2000_0000, 0x30FF_0000],
        &mut map,
    )?;
    analyse_line(
        rt,
        "3 units of 2, held",
        &[0x1000_0002, 0x2000_0000, 0x3000_0000, 0x3002_0000],
        &mut map,
    )?;
    analyse_line(
        rt,
        "release of 2 units",
        &[0x1000_0002, 0x2000_0000, 0x3001_0000, 0x4001_0000],
        &mut map,
    )?;
    analyse_line(
        rt,
        "bit 24",
        &[0x1000_0002, 0x2000_0000, 0x3100_0000],
        &mut map,
    )
}

// The cleaner keeps the units.
pub fn cleaned(rt: &impl Print) -> Result<()> {
    clean_line(rt, "3 units of device 1", &UNCLAIMED, &mut [BLANK; CLEANED])
}
