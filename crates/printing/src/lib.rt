// The printer's work: from the bytes of a set's file to the text that is printed, in a lent slice.
#![tactic(auto)]

ghost use Rattle.std.specs.Prelude.{◌≡◌, ◌≤◌, length};
ghost use Rattle.model.specs.Answer.{◌then◌};
ghost use Rattle.model.specs.Read.{read};
ghost use Rattle.model.specs.Printed.{to_print, text_of, shown, printed_in};

// The slices lent to the analysis: a byte for each state of the largest grid, and the most words of a plan that is printed.
const MAP: usize = model::MAX_GRID as usize;

const PLAN: usize = 16384;

// A slice for the longest text: a line for each of those words.
pub const TEXT: usize = PLAN * listing::LINE;

// What the map slice holds before the analysis: no byte of a map.
const NOT_ANALYSED: u8 = 0xFF;

// What is printed of a file's bytes, at the start of `text`; the answer is how many bytes it has. A slice that is shorter than the longest text is left as it
// is, and the answer is 0, which no text's length is.
pub fn print(bytes: &[u8], text: &mut [u8]) -> usize
    ensures text_after { record { count = result; slice = text.new } ≡ printed_in bytes.now text.old }
    ensures upper_bound { result ≤ 147456 }
{
    if text.len() < TEXT {
        return 0;
    }
    let mut words = [0u32; model::MAX_WORDS];
    match listing::decode(bytes, &mut words) {
        Ok(count) => print_plan(&words[..count], text),
        Err(refusal) => listing::put_refusal(refusal.reason.number(), refusal.place, text),
    }
}

// What is printed of a set's words: its plan, or the analysis' refusal.
fn print_plan(words: &[u32], text: &mut [u8]) -> usize
    requires { 147456 ≤ length text.old }
    ensures text_after { record { count = result; slice = text.new } ≡ shown (text_of (read words.now then to_print)) text.old }
    ensures upper_bound { result ≤ 147456 }
{
    let mut map = [NOT_ANALYSED; MAP];
    let mut plan = [0u32; PLAN];
    match analysis::analyse(words, &mut map, &mut plan) {
        Ok(planned) => listing::fill_lines(&plan[..planned.words], text) * listing::LINE,
        Err(refused) => listing::put_refusal(refused.reason.number(), refused.place, text),
    }
}
