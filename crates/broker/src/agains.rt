// What an again answers: the first that applies.
ghost use Rattle.std.specs.Prelude.{◌≡◌};
ghost use Rattle.model.specs.Answer.{◌then◌};
ghost use Rattle.model.specs.Read.{read};
ghost use Rattle.model.specs.Broker.{again_answer};
ghost use Rattle.records.specs.Says.{record_of};
ghost use Rattle.shape.specs.SetOf.{set_of};
ghost use Rattle.broker.specs.Says.{again_of};

use records::Record;
use refusals::{Reason, Refusal};
use shape::AcceptedSet;

// The answer on an accepted set. Its words are not looked at.
fn answer_on(set: &AcceptedSet, rec: Record) -> Result<(), Refusal>
    ensures { again_of result ≡ again_answer (set_of set.now) (record_of rec) }
{
    if records::unfit(rec, set.shape) {
        return Err(Reason::BadRecord.at(0));
    }
    if records::at_end(rec, set.shape) {
        return Ok(());
    }
    Err(Reason::NotAtEnd.at(records::rank_of(rec, set.shape)))
}

// The answer on the words lent.
pub(crate) fn answer(words: &[u32], rec: Record) -> Result<(), Refusal>
    ensures { again_of result ≡ (read words.now then λ s. again_answer s (record_of rec)) }
{
    let set = reader::accept(words)?;
    answer_on(&set, rec)
}
