// What a program is asked for by its arguments.
use std::env::{Env, FillError};

#[derive(Clone, Copy)]
pub enum Asked {
    // No argument.
    Work,
    Help,
    Version,
    // Any other.
    Other,
}

// Room for the longest argument that is known; a longer one is none of them.
const LONGEST: usize = 16;

// The arguments' places: the program's own name stands at 0.
const FIRST: usize = 1;

const SECOND: usize = 2;

pub fn read_arguments(rt: HostRuntime) -> Asked {
    if !is_given(rt, FIRST) {
        return Asked::Work;
    }
    if is_given(rt, SECOND) {
        return Asked::Other;
    }
    let mut word = [0u8; LONGEST];
    let Ok(n) = rt.arg(FIRST, &mut word) else {
        return Asked::Other;
    };
    match &word[..n] {
        b"--help" => Asked::Help,
        b"--version" => Asked::Version,
        _ => Asked::Other,
    }
}

// Whether there is an argument at this place, an empty one too.
pub fn is_given(rt: HostRuntime, place: usize) -> bool {
    let mut byte = [0u8; 1];
    match rt.arg(place, &mut byte) {
        Ok(_) | Err(FillError::TooLong) => true,
        Err(FillError::NotPresent) => false,
    }
}
