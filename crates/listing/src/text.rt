// Words and refusals as text, put into a lent slice. The digits are made by hand: each clause says the bytes that stand there, and a `Display` promises none.
ghost use Rattle.std.specs.Prelude.{◌≡◌, ◌++◌, ◌+◌, ◌/◌, ◌≤◌, ◌<◌, min, length, take, set};
ghost use Rattle.model.specs.Slice.{over, write};
ghost use Rattle.model.specs.Printed.{hex_digit, hex_line, lines_of, decimal, refusal_line};

// A word's digits.
pub const DIGITS: usize = 8;

// The bytes of a line: the digits and a line feed.
pub const LINE: usize = DIGITS + 1;

// The bases of words and of a refusal's numbers.
const SIXTEEN: u32 = 16;

const TEN: usize = 10;

// The first digit that is a letter.
const FIRST_LETTER: u8 = 10;

// Puts the lines of the words at the start of `out`, as many as there is room for, and answers how many.
pub fn fill_lines(words: &[u32], out: &mut [u8]) -> usize
    ensures value { result ≡ min (length words.now) (length out.old / 9) }
    ensures out_after { out.new ≡ over (lines_of (take result words.now)) out.old }
{
    let count = words.len().min(out.len() / LINE);
    for k in 0..count {
        let line = hex_line(words[k]);
        put(&line, out, k * LINE);
    }
    count
}

// A word's digits, the highest first, and a line feed.
pub fn hex_line(word: u32) -> [u8; LINE]
    ensures { result ≡ hex_line word }
{
    [
        hex_digit(word / 0x1000_0000 % SIXTEEN),
        hex_digit(word / 0x100_0000 % SIXTEEN),
        hex_digit(word / 0x10_0000 % SIXTEEN),
        hex_digit(word / 0x1_0000 % SIXTEEN),
        hex_digit(word / 0x1000 % SIXTEEN),
        hex_digit(word / 0x100 % SIXTEEN),
        hex_digit(word / 0x10 % SIXTEEN),
        hex_digit(word % SIXTEEN),
        b'\n',
    ]
}

// A digit's character.
fn hex_digit(n: u32) -> u8
    requires { n < 16 }
    ensures { result ≡ hex_digit n }
{
    let digit = n as u8;
    if digit < FIRST_LETTER {
        b'0' + digit
    } else {
        b'A' + (digit - FIRST_LETTER)
    }
}

// Puts a refusal's line at the start of `out`, and answers its length. Two numbers of 64 bits have at most 20 digits each, and 13 bytes stand round them.
pub fn put_refusal(number: u8, place: usize, out: &mut [u8]) -> usize
    requires { 53 ≤ length out.old }
    ensures value { result ≡ length (refusal_line number place) }
    ensures upper_bound { result ≤ 53 }
    ensures out_after { out.new ≡ over (refusal_line number place) out.old }
{
    let numbered = put_named(b"refused ", number as usize, out, 0);
    let placed = put_named(b" at ", place, out, numbered);
    put(b"\n", out, placed)
}

// Puts a number behind its text at index `to` of `out`, and answers the index after it.
fn put_named(name: &[u8], n: usize, out: &mut [u8], to: usize) -> usize
    requires { to + length name.now + 20 ≤ length out.old }
    ensures value { result ≡ to + length (name.now ++ decimal n) }
    ensures upper_bound { result ≤ to + length name.now + 20 }
    ensures out_after { out.new ≡ write out.old to (name.now ++ decimal n) }
{
    let named = put(name, out, to);
    put_decimal(n, out, named)
}

// Puts a number's decimal digits at index `to` of `out`, the highest first, and answers the index after them.
fn put_decimal(n: usize, out: &mut [u8], to: usize) -> usize
    requires { to + length (decimal n) ≤ length out.old }
    ensures value { result ≡ to + length (decimal n) }
    ensures out_after { out.new ≡ write out.old to (decimal n) }
{
    if n < TEN {
        return put_digit(n, out, to);
    }
    let last = put_decimal(n / TEN, out, to);
    put_digit(n % TEN, out, last)
}

// Puts one decimal digit there.
fn put_digit(n: usize, out: &mut [u8], to: usize) -> usize
    requires n_bound { n < 10 }
    requires to_in_bounds { to < length out.old }
    ensures value { result ≡ to + 1 }
    ensures out_after { out.new ≡ set out.old to (48 + n) }
{
    out[to] = b'0' + n as u8;
    to + 1
}

// Puts bytes at index `to` of `out`, and answers the index after them.
pub(crate) fn put(bytes: &[u8], out: &mut [u8], to: usize) -> usize
    requires { to + length bytes.now ≤ length out.old }
    ensures value { result ≡ to + length bytes.now }
    ensures out_after { out.new ≡ write out.old to bytes.now }
{
    let end = to + bytes.len();
    out[to..end].copy_from_slice(bytes);
    end
}
