// The work of the program `clean`: from the bytes of a set's file to those of the cleaned set's, in a lent slice.
#![tactic(auto)]

ghost use Rattle.std.specs.Prelude.{◌≡◌, ◌≤◌, length};
ghost use Rattle.model.specs.Answer.{◌then◌};
ghost use Rattle.model.specs.Layout.{former};
ghost use Rattle.model.specs.Read.{read_by};
ghost use Rattle.model.specs.Printed.{shown};
ghost use Rattle.model.specs.CleanFile.{to_write, output_of, cleaned_in};

// A slice with room for 4,096 words, more than any cleaned set has.
pub const FILE: usize = listing::MAX_BYTES;

// What is written for a file's bytes, at the start of `file`; the answer is how many bytes it has. A shorter slice is left as it is, and the answer is 0, which no
// file's length is: the definition `cleaned_in` says this 0, so it is no Option.
pub fn clean_file(bytes: &[u8], file: &mut [u8]) -> usize
    ensures file_after { record { count = result; slice = file.new } ≡ cleaned_in bytes.now file.old }
    ensures upper_bound { result ≤ 16384 }
{
    if file.len() < FILE {
        return 0;
    }
    let mut words = [0u32; model::MAX_WORDS];
    match listing::decode(bytes, &mut words) {
        Ok(count) => clean_words(&words[..count], file),
        Err(refusal) => listing::put_refusal(refusal.reason.number(), refusal.place, file),
    }
}

// What is written for a set's words: those of the cleaned set, or the cleaner's refusal.
fn clean_words(words: &[u32], file: &mut [u8]) -> usize
    requires { 16384 ≤ length file.old }
    ensures file_after { record { count = result; slice = file.new } ≡ shown (output_of (read_by former words.now then to_write)) file.old }
    ensures upper_bound { result ≤ 16384 }
{
    let mut clean = [0u32; model::MAX_WORDS];
    match cleaner::clean(words, &mut clean) {
        Ok(count) => listing::fill_bytes(&clean[..count], file) * listing::WORD_BYTES,
        Err(refusal) => listing::put_refusal(refusal.reason.number(), refusal.place, file),
    }
}
