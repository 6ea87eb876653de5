// Words out of a file's bytes, and their bytes again; words and refusals as text.
#![tactic(auto)]

mod text;

ghost use Rattle.std.specs.Prelude.{◌≡◌, ◌/◌, ◌<◌, min, length, take};
ghost use Rattle.model.specs.Slice.{over};
ghost use Rattle.model.specs.Answer.{given, ◌then◌, if_given};
ghost use Rattle.model.specs.Printed.{word_at, words_in, words_of};
ghost use Rattle.model.specs.CleanFile.{bytes_of, bytes_of_all};
ghost use Rattle.refusals.specs.Answers.{answer_of};

use refusals::{Reason, Refusal};
pub use text::{DIGITS, LINE, fill_lines, hex_line, put_refusal};

// A word's bytes.
pub const WORD_BYTES: usize = 4;

// A set's file has at most this many bytes.
pub const MAX_BYTES: usize = model::MAX_WORDS * WORD_BYTES;

// One byte more than a set's file may have is read, to tell that there are too many.
pub const INPUT: usize = MAX_BYTES + 1;

// The words of the bytes, lowest byte first, unless there are too many or the last is not whole. A caller lends room for 4,096 words.
pub fn decode(bytes: &[u8], words: &mut [u32]) -> Result<usize, Refusal>
    ensures value { answer_of (λ n. n) result ≡ (words_of bytes.now then λ ws. given (length ws)) }
    ensures words_after { words.new ≡ if_given (words_of bytes.now) (λ ws. take (length words.old) (over ws words.old)) words.old }
{
    if MAX_BYTES < bytes.len() {
        return Err(Reason::TooManyWords.at(model::MAX_WORDS));
    }
    if bytes.len() % WORD_BYTES != 0 {
        return Err(Reason::BytesNotWords.at(bytes.len() / WORD_BYTES));
    }
    fill_words(bytes, words);
    Ok(bytes.len() / WORD_BYTES)
}

// The whole words of the bytes, as many as there is room for.
pub fn fill_words(bytes: &[u8], words: &mut [u32])
    ensures { words.new ≡ take (length words.old) (over (words_in bytes.now) words.old) }
{
    let count = words.len().min(bytes.len() / WORD_BYTES);
    for k in 0..count {
        words[k] = word_at(bytes, k);
    }
}

// The k-th word of the bytes, lowest byte first.
fn word_at(bytes: &[u8], k: usize) -> u32
    requires { k < length bytes.now / 4 }
    ensures { result ≡ word_at bytes.now k }
{
    u32::from_le_bytes([
        bytes[k * WORD_BYTES],
        bytes[k * WORD_BYTES + 1],
        bytes[k * WORD_BYTES + 2],
        bytes[k * WORD_BYTES + 3],
    ])
}

// A word's bytes, lowest first.
pub fn word_bytes(word: u32) -> [u8; WORD_BYTES]
    ensures { result ≡ bytes_of word }
{
    word.to_le_bytes()
}

// Puts the bytes of the words at the start of `out`, as many words as there is room for, and answers how many.
pub fn fill_bytes(words: &[u32], out: &mut [u8]) -> usize
    ensures value { result ≡ min (length words.now) (length out.old / 4) }
    ensures out_after { out.new ≡ over (bytes_of_all (take result words.now)) out.old }
{
    let count = words.len().min(out.len() / WORD_BYTES);
    for k in 0..count {
        let bytes = word_bytes(words[k]);
        text::put(&bytes, out, k * WORD_BYTES);
    }
    count
}
