// One more word of a plan, at its index: whether it may stand there, and what a walk has seen once it is taken. This is the reader over a slice and a number.
ghost use Rattle.std.specs.Prelude.{◌≡◌, ◌≤◌, ◌<◌};
ghost use Rattle.model.specs.Layout.{kind_of, field_of};
ghost use Rattle.model.specs.StoredPlan.{is_rank};
ghost use Rattle.set_words.specs.Kinds.{kind_named, number_of};
ghost use Rattle.plan_reader.specs.Walk.{word_at, side_taken, end_taken, rank_noted, box_noted, follows, head_taken};

use crate::Location;
use crate::seen::Seen;
use refusals::{Reason, Refusal};
use set_words::Kind;

// The word at an index, None past the last one.
pub(crate) fn word_at(words: &[u32], at: usize) -> Option<u32>
    ensures { result ≡ word_at words.now at }
{
    if words.len() <= at {
        return None;
    }
    Some(words[at])
}

// Devices are numbered below this.
const DEVICES: u32 = model::MAX_DEVICES as u32;

// The word at an index where a side is missing, of the task that has this position.
pub(crate) fn take_side(
    seen: Seen,
    at: usize,
    word: u32,
    tasks: usize,
    position: u8,
) -> Result<Seen, Refusal>
    requires { (seen.sides < tasks) × (tasks ≤ 8) }
    ensures { result ≡ side_taken tasks position seen at word }
{
    if !plan_words::is_side(word, seen.sides) {
        return Err(Reason::OutsideLayout.at(at));
    }
    let sides = seen.sides + 1;
    let holds = seen.holds && plan_words::side_holds(word, position);
    if sides == tasks && holds {
        return Ok(Seen {
            sides,
            holds,
            found: seen.last_box(),
            ..seen
        });
    }
    Ok(Seen {
        sides,
        holds,
        ..seen
    })
}

// END at an index of so many words: it names that index, and no word may come after it.
pub(crate) fn take_end(
    found: Location,
    at: usize,
    word: u32,
    count: usize,
) -> Result<Location, Refusal>
    requires { at < count }
    ensures { result ≡ end_taken count found at word }
{
    if set_words::field(word) as usize != at {
        return Err(Reason::OutsideLayout.at(at));
    }
    if at + 1 < count {
        return Err(Reason::OutsideLayout.at(at + 1));
    }
    Ok(found)
}

// Whether words of a kind name states by their ranks.
#[tactic(auto, unfolding(model::specs::StoredPlan::is_rank))]
fn is_rank(kind: Kind) -> bool
    ensures { result ≡ is_rank (number_of kind) }
{
    matches!(kind, Kind::DeadState | Kind::UnreachedState)
}

// Whether a word other than END may stand where no side is missing. Tests and no match on the kind: that was tried, and jumps through a table, which is slower.
fn may_follow(seen: Seen, kind: Kind, field: u32) -> bool
    ensures { result ≡ follows seen (number_of kind) field }
{
    if kind < seen.section {
        return false;
    }
    if kind == Kind::ForbiddenBox {
        return field < DEVICES;
    }
    if kind == Kind::UnsafeBox {
        return field == 0;
    }
    is_rank(kind) && (seen.section < kind || seen.least <= field)
}

// A rank, in a plan of so many tasks.
fn take_rank(seen: Seen, kind: Kind, rank: u32, tasks: usize) -> Seen
    requires { rank < 0x10000000 }
    ensures { result ≡ rank_noted tasks seen kind rank }
{
    Seen {
        section: kind,
        sides: tasks,
        least: rank + 1,
        ..seen
    }
}

// The first word of a box, at an index.
fn take_box(seen: Seen, kind: Kind, at: usize) -> Seen
    ensures { result ≡ box_noted seen kind at }
{
    Seen {
        section: kind,
        sides: 0,
        least: 0,
        start: at,
        holds: seen.nothing_found(),
        ..seen
    }
}

// A word other than END, at an index where no side is missing.
pub(crate) fn take_head(seen: Seen, at: usize, word: u32, tasks: usize) -> Result<Seen, Refusal>
    ensures { result ≡ head_taken tasks seen at (kind_named (kind_of word)) (field_of word) }
{
    let Some(kind) = set_words::named_kind(word) else {
        return Err(Reason::OutsideLayout.at(at));
    };
    let field = set_words::field(word);
    if !may_follow(seen, kind, field) {
        return Err(Reason::OutsideLayout.at(at));
    }
    if is_rank(kind) {
        return Ok(take_rank(seen, kind, field, tasks));
    }
    Ok(take_box(seen, kind, at))
}
