// A read or a write that failed, told on standard error.
ghost use Rattle.io.specs.Counts.{IsPrefixLen};

use std::io::{Cursor, Error, Result, Write};
use std::str;

// Room for the system's text of an error.
const TEXT: usize = 256;

// What stands between an error's text and its number.
const NUMBER: &str = " (os error ";

// Says that the program of this name could not read its input.
pub fn unread(rt: &impl Eprint, name: &str, error: Error) {
    fail(rt, name, "can't read standard input", error);
}

// Says it where something was not written.
pub fn written(rt: &impl Eprint, name: &str, outcome: Result<()>) {
    if let Err(error) = outcome {
        fail(rt, name, "can't write standard output", error);
    }
}

// A line: the program, what failed and the error's text, without its number, with colons between them.
fn fail(rt: &impl Eprint, name: &str, what: &str, error: Error) {
    let mut bytes = [0u8; TEXT];
    let count = put_error(error, &mut bytes);
    let why = without_number(str::from_utf8(&bytes[..count]).unwrap_or(""));
    let _ = eprintln!(rt; "{name}: {what}: {why}");
}

// Puts an error's text at the start of `bytes`, and answers how many bytes it has there.
fn put_error(error: Error, bytes: &mut [u8]) -> usize
    ensures { IsPrefixLen result bytes.new }
{
    let most = bytes.len();
    let mut text = Cursor::new(bytes);
    let _ = write!(text, "{error}");
    (text.position() as usize).min(most)
}

fn without_number(text: &str) -> &str {
    match text.split_once(NUMBER) {
        Some((before, _)) => before,
        None => text,
    }
}
