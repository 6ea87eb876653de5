// A case's set: analysed into slices that are filled before, and cleaned.
use crate::plays::first;
use crate::text::{FILL, Map, Words};
use console::{Counted, Said};
use std::io::Result;

// The longest slice for a cleaned set.
const MAX_CLEAN: usize = 540;

// What a slice of words is filled with before a call.
const FILL_WORD: u32 = 0xAAAA_AAAA;

pub fn analyse_set(rt: &impl Print, words: &[u32], map: &mut [u8], plan: &mut [u32]) -> Result<()> {
    map.fill(FILL);
    plan.fill(FILL_WORD);
    println!(rt; "{}", Said(analysis::analyse(words, map, plan)))?;
    println!(rt; "map:{}", Map(map))?;
    println!(rt; "plan:{}", Words(plan))
}

// Cleans the first words of a slice, the set's, through one of this length, and puts back what is written; the answer is how many words the set has then.
pub fn clean_set(rt: &impl Print, set: &mut [u32], count: usize, length: usize) -> Result<usize> {
    let mut slice = [FILL_WORD; MAX_CLEAN];
    let room = length.min(MAX_CLEAN);
    let cleaned = cleaner::clean(first(set, count), &mut slice[..room]);
    println!(rt; "{}:{}", Counted("cleaned", cleaned), Words(&slice[..room]))?;
    let Ok(words) = cleaned else {
        return Ok(count);
    };
    let written = words.min(room).min(set.len());
    set[..written].copy_from_slice(&slice[..written]);
    Ok(written)
}
