// Reads a set of devices and tasks from its words, or refuses it at the first word with a fault. By the former rules too, which let a device stand that no task
// claims.
#![tactic(auto)]

mod faults;
mod rules;
mod run;
mod scan;
mod weights;
mod words;

ghost use Rattle.std.specs.Prelude.{◌≡◌, ◌<◌, ◌≤◌, IfOk};
ghost use Rattle.model.specs.Read.{read, read_by};
ghost use Rattle.refusals.specs.Answers.{answer_of};
ghost use Rattle.shape.specs.SetOf.{set_of};
ghost use Rattle.reader.specs.Answer.{rules_of, answer};
ghost use Rattle.reader.specs.Follow.{Closes};

use refusals::{Reason, Refusal};
pub use rules::Rules;
use scan::{Scan, nothing};
use shape::{AcceptedSet, Shape};
use weights::Weights;

// What a set that was read has: its shape, and which of its devices some task claims.
#[derive(Clone, Copy)]
pub struct Reading {
    pub shape: Shape,
    pub claimed: [bool; model::MAX_DEVICES],
}

// The answer after n words without a fault, the last of which is END, whose devices are as they should be: refusal 12, or what the set has.
fn close(scan: &Scan, n: usize) -> Result<Reading, Refusal>
    requires { (0 < n) × (scan.now.tasks ≤ 8) }
    ensures { Closes scan.now n result }
{
    let Scan {
        devices,
        capacities,
        tasks,
        lengths,
        starts,
        held: _,
        claimed,
    } = *scan;
    let Weights { grid, of: weights } = weights::weigh(tasks, &lengths);
    if weights::MAX_GRID < grid {
        return Err(Reason::GridTooLarge.at(n - 1));
    }
    let shape = Shape {
        devices,
        capacities,
        tasks,
        lengths,
        starts,
        weights,
        grid,
    };
    Ok(Reading { shape, claimed })
}

// What the set that the words declare has, or the refusal, by these rules: every slice is taken.
pub fn read(words: &[u32], rules: Rules) -> Result<Reading, Refusal>
    ensures { answer_of (λ r. r) result ≡ answer (read_by (rules_of rules) words.now) }
{
    let mut scan = nothing();
    words::read_words(words, &mut scan)?;
    if let Some(device) = rules::unclaimed_device(rules, scan.devices, &scan.claimed) {
        return Err(Reason::UnclaimedDevice.at(device));
    }
    close(&scan, words.len())
}

// The set that the words declare, or the refusal, by the present rules: the words are lent to the set.
pub fn accept<'a>(words: &'a [u32]) -> Result<AcceptedSet<'a>, Refusal>
    ensures reads { answer_of set_of result ≡ read words.now }
    ensures lends { IfOk result (λ s. s.words ≡ words.entry) }
{
    let reading = read(words, Rules::Present)?;
    Ok(AcceptedSet {
        words,
        shape: reading.shape,
    })
}
