// Input, read to its end.
ghost use Rattle.std.specs.Prelude.{IfOk, IfErr};
ghost use Rattle.io.specs.Counts.{IsPrefixLen};

use std::io::{Error, Read};

// A read that failed: how many bytes came before it, and why.
#[derive(Clone, Copy)]
pub struct FailedRead {
    pub count: usize,
    pub error: Error,
}

// Reads until the input ends, a read fails or `bytes` is full, and answers how many bytes were read.
pub fn read_all(input: &mut impl Read, bytes: &mut [u8]) -> Result<usize, FailedRead>
    ensures whole { IfOk result (λ count. IsPrefixLen count bytes.new) }
    ensures before { IfErr result (λ failed. IsPrefixLen failed.count bytes.new) }
{
    let mut count = 0;
    while count < bytes.len() {
        match input.read(&mut bytes[count..]) {
            Ok(0) => break,
            Ok(more) => count += more,
            Err(error) => return Err(FailedRead { count, error }),
        }
    }
    Ok(count)
}
