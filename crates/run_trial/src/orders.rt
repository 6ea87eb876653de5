// The argument that is an order: task numbers with commas between them.
ghost use Rattle.std.specs.Prelude.{IfSome};
ghost use Rattle.io.specs.Counts.{IsPrefixLen};

use crate::arguments::complain;
use std::env::Env;

const ORDER: usize = 1;

// Room for one place more than an order may have, by which the trial tells that it is too long. What would stand behind that one changes no answer.
pub const ROOM: usize = model::MAX_ORDER + 1;

// Room for the argument.
const TEXT: usize = 4096;

// Puts the order's tasks at the start of `order`, as many as there is room for, and answers how many. What is no order is said.
pub fn read_order(rt: HostRuntime, order: &mut [u8]) -> Option<usize>
    ensures { IfSome result (λ count. IsPrefixLen count order.new) }
{
    let mut text = [0u8; TEXT];
    let Ok(n) = rt.arg(ORDER, &mut text) else {
        complain(&rt, "run_trial: ORDER is too long, it may have 255 tasks");
        return None;
    };
    let Some(count) = fill_order(&text[..n], order) else {
        complain(
            &rt,
            "run_trial: ORDER must be task numbers from 0 to 7 with commas between them, as 0,1,0,2",
        );
        return None;
    };
    Some(count)
}

// How many tasks a text names, which are put there; a text of no character names none. A task is named by a byte: whether the set has it is the trial's matter.
fn fill_order(text: &[u8], order: &mut [u8]) -> Option<usize>
    ensures { IfSome result (λ count. IsPrefixLen count order.new) }
{
    let mut count = 0;
    if text.is_empty() {
        return Some(count);
    }
    for number in text.split(|c| *c == b',') {
        let task = u8::try_from(program::read_number(number)?).ok()?;
        if count < order.len() {
            order[count] = task;
            count += 1;
        }
    }
    Some(count)
}
