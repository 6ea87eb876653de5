// A number in an argument.
use std::str;

// A number of at most 32 bits in decimal: digits alone, and at least one.
pub fn read_number(text: &[u8]) -> Option<u32> {
    if !text.iter().all(u8::is_ascii_digit) {
        return None;
    }
    str::from_utf8(text).ok()?.parse().ok()
}
