// Standard input: its words, and a case's header.
use crate::calls::CALL_WORDS;
use std::io::Read;

// How many words the set has and how many the calls, and the lengths of the slices.
#[derive(Clone, Copy)]
pub struct Header {
    pub set_words: usize,
    pub call_words: usize,
    pub map_length: usize,
    pub plan_length: usize,
}

pub fn read_word(input: &mut impl Read) -> u32 {
    let mut bytes = [0u8; listing::WORD_BYTES];
    let mut words = [0u32; 1];
    read_words(input, 1, &mut bytes, &mut words);
    words[0]
}

// So many words of the input, as many as there is room for. Bytes that it doesn't have, or that a failed read leaves, stay as they were.
pub fn read_words(input: &mut impl Read, count: usize, bytes: &mut [u8], words: &mut [u32]) {
    let want = count.min(bytes.len() / listing::WORD_BYTES) * listing::WORD_BYTES;
    let _ = program::read_all(input, &mut bytes[..want]);
    listing::fill_words(&bytes[..want], words);
}

pub fn read_header(input: &mut impl Read) -> Header {
    let set_words = read_word(input) as usize;
    let map_length = read_word(input) as usize;
    let plan_length = read_word(input) as usize;
    let calls = read_word(input) as usize;
    Header {
        set_words,
        call_words: calls * CALL_WORDS,
        map_length,
        plan_length,
    }
}
