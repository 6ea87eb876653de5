// Checksums of slices: FNV-1a of 32 bits over the bytes, a word's lowest byte first.
pub const START: u32 = 0x811C_9DC5;

const PRIME: u32 = 0x0100_0193;

pub fn bytes_sum(slice: &[u8]) -> u32 {
    let mut sum = START;
    for byte in slice {
        sum = sum_byte(sum, *byte);
    }
    sum
}

pub fn words_sum(slice: &[u32]) -> u32 {
    let mut sum = START;
    for word in slice {
        sum = sum_word(sum, *word);
    }
    sum
}

pub fn sum_word(begun: u32, word: u32) -> u32 {
    let mut sum = begun;
    for byte in word.to_le_bytes() {
        sum = sum_byte(sum, byte);
    }
    sum
}

fn sum_byte(sum: u32, byte: u8) -> u32 {
    (sum ^ u32::from(byte)).wrapping_mul(PRIME)
}
