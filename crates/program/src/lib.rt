// What the programs that read a file have in common: what they are asked for, numbers among it, their input read to its end, a read or a write that failed, and their
// version.
#![tactic(auto)]

mod arguments;
mod failures;
mod input;
mod numbers;
mod whole;

pub use arguments::{Asked, is_given, read_arguments};
pub use failures::{unread, written};
pub use input::{FailedRead, read_all};
pub use numbers::read_number;
use std::io::Result;
pub use whole::filter;

// The parts of a version's number.
const MAJOR: u32 = 10000;

const MINOR: u32 = 100;

// A program's name and version, on one line.
pub fn print_version(rt: &impl Print, name: &str) -> Result<()> {
    let major = model::VERSION / MAJOR;
    let minor = model::VERSION / MINOR % MINOR;
    let patch = model::VERSION % MINOR;
    println!(rt; "{name} {major}.{minor}.{patch}")
}
