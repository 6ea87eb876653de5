// A case: its slices, the analysis, and the calls on what that left.
use crate::calls::CALL_WORDS;
use crate::input::{read_header, read_word, read_words};
use crate::plays::{first, make_calls};
use crate::sets::analyse_set;
use console::Onward;
use std::io::{Read, Result};

// The limits of a case, as tests/make_corpus.py has them.
const MAX_SET: usize = 4097;

const MAX_CALLS: usize = 514;

const MAX_MAP: usize = 65600;

const MAX_PLAN: usize = 16400;

const MAX_ORDER: usize = 65600;

// Room for the words of the calls, and for the bytes of the set's words, which may be more.
const MAX_LIST: usize = MAX_CALLS * CALL_WORDS;

const BYTES: usize = MAX_SET * listing::WORD_BYTES;

pub fn play_all(rt: HostRuntime) -> Result<()> {
    let output = Onward { output: rt };
    let cases = read_word(&mut rt.stdin());
    for number in 0..cases {
        play_case(&output, &mut rt.stdin(), number)?;
    }
    Ok(())
}

fn play_case(rt: &impl Print, input: &mut impl Read, number: u32) -> Result<()> {
    let mut bytes = [0u8; BYTES];
    let mut set = [0u32; MAX_SET];
    let mut list = [0u32; MAX_LIST];
    let mut map = [0u8; MAX_MAP];
    let mut plan = [0u32; MAX_PLAN];
    let mut order = [0u8; MAX_ORDER];
    print!(rt; "case {number}: ")?;
    let head = read_header(input);
    read_words(input, head.set_words, &mut bytes, &mut set);
    read_words(input, head.call_words, &mut bytes, &mut list);
    let own_list = head.call_words.min(MAX_LIST);
    let own_map = head.map_length.min(MAX_MAP);
    let own_plan = head.plan_length.min(MAX_PLAN);
    let map = &mut map[..own_map];
    let plan = &mut plan[..own_plan];
    analyse_set(rt, first(&set, head.set_words), map, plan)?;
    make_calls(
        rt,
        &mut set,
        head.set_words,
        &list[..own_list],
        map,
        plan,
        &mut order,
    )
}
