// The arguments that are numbers: rounds, share and window.
use broker::Settings;
use std::env::Env;

// How many arguments there are, the program's own name among them.
const COUNT: usize = 5;

const ROUNDS: usize = 2;

const SHARE: usize = 3;

const WINDOW: usize = 4;

// Room for a number; a longer argument is none.
const LONGEST: usize = 16;

// The trial that is asked for, besides its order.
#[derive(Clone, Copy)]
pub struct Wanted {
    pub rounds: u16,
    pub settings: Settings,
}

pub fn complain(rt: &impl Eprint, line: &str) {
    let _ = rt.eprintln(line);
}

// Whether there are as many as a trial takes, and no more.
pub fn are_complete(rt: HostRuntime) -> bool {
    program::is_given(rt, COUNT - 1) && !program::is_given(rt, COUNT)
}

// Settings are taken as they are: which of them are allowed is the trial's matter. The first argument that can't be taken is said.
pub fn read_wanted(rt: HostRuntime) -> Option<Wanted> {
    let Some(rounds) = rounds_at(rt, ROUNDS) else {
        complain(&rt, "run_trial: ROUNDS must be a number from 0 to 65535");
        return None;
    };
    let Some(share) = number_at(rt, SHARE) else {
        complain(&rt, "run_trial: SHARE must be a number from 1 to 255");
        return None;
    };
    let Some(window) = number_at(rt, WINDOW) else {
        complain(&rt, "run_trial: WINDOW must be a number from 1 to 255");
        return None;
    };
    Some(Wanted {
        rounds,
        settings: Settings { share, window },
    })
}

fn rounds_at(rt: HostRuntime, i: usize) -> Option<u16> {
    u16::try_from(number_at(rt, i)?).ok()
}

fn number_at(rt: HostRuntime, i: usize) -> Option<u32> {
    let mut word = [0u8; LONGEST];
    let n = rt.arg(i, &mut word).ok()?;
    program::read_number(&word[..n])
}
