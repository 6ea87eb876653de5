// All words, with the refusals 1 to 11 and 28. What the whole set must keep, refusals 24 and 12, comes after them.
ghost use Rattle.std.specs.Prelude.{◌≡◌};
ghost use Rattle.model.specs.Read.{nothing_read};
ghost use Rattle.reader.specs.Follow.{ReadsAll, scan_of};

use crate::scan::Scan;
use crate::{faults, run};
use refusals::{Reason, Refusal};

// Reads all words into a scan that has read none: Ok where its END closed a set, or the first fault. The scan is lent, and not answered: moved out of a Result it
// would be copied, which each bid pays for.
pub(crate) fn read_words(words: &[u32], scan: &mut Scan) -> Result<(), Refusal>
    requires { scan.old ≡ scan_of nothing_read }
    ensures { ReadsAll words.now scan.new result }
{
    let n = words.len();
    if n == 0 {
        return Err(Reason::NoWords.at(0));
    }
    if model::MAX_WORDS < n {
        return Err(Reason::TooManyWords.at(model::MAX_WORDS));
    }
    let i = run::read_runs(words, scan);
    if n <= i {
        return Err(Reason::NoEnd.at(n));
    }
    if let Some(reason) = faults::word_fault(scan, i, words[i]) {
        return Err(reason.at(i));
    }
    // Only END has no fault where a run stops.
    if i + 1 < n {
        return Err(Reason::WordAfterEnd.at(i + 1));
    }
    Ok(())
}
