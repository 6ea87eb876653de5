// The merge: two sets as one. Their first so many devices are the same ones, the second set's others follow the first's, and its tasks come after the first's.
#![tactic(auto)]

mod reading;
mod writing;

ghost use Rattle.std.specs.Prelude.{◌≡◌, not, cond, Some, None, ◌≤◌, length, eqb, ltb};
ghost use Rattle.model.specs.Below.{lowest};
ghost use Rattle.model.specs.Set.{at};
ghost use Rattle.model.specs.Merge as model;
ghost use Rattle.merge.specs.Says.{merged_of};

use refusals::{Reason, Refusal};
use shape::AcceptedSet;

// The lowest of the first so many devices that has two capacities.
fn first_unequal(
    shared: usize,
    first: &[u8; model::MAX_DEVICES],
    second: &[u8; model::MAX_DEVICES],
) -> Option<usize>
    requires shared_bound { shared ≤ 16 }
    requires first_len { (length first.now ≡ 16) × (length second.now ≡ 16) }
    ensures { let d = lowest shared (λ d. not (eqb (at first.now d) (at second.now d))) in result ≡ cond (ltb d shared) (Some d) None }
{
    for d in 0..shared {
        if first[d] != second[d] {
            return Some(d);
        }
    }
    None
}

// Merges two accepted sets: 29, 30, 31, and what the merged words would be refused with, before anything is written.
fn merge_sets(
    first: &AcceptedSet,
    second: &AcceptedSet,
    shared: usize,
    slice: &mut [u32],
) -> Result<usize, Refusal>
    ensures { merged_of result slice.new ≡ model.merge first.now.words.now second.now.words.now shared slice.old }
{
    if first.shape.devices < shared || second.shape.devices < shared {
        return Err(Reason::TooManyShared.at(0));
    }
    if let Some(device) = first_unequal(shared, &first.shape.capacities, &second.shape.capacities) {
        return Err(Reason::UnequalCapacities.at(device));
    }
    let needed = first.words.len() + second.words.len() - shared - 1;
    if slice.len() < needed {
        return Err(Reason::MergeTooShort.at(needed));
    }
    reading::read_merged(first, second, shared)?;
    Ok(writing::write_merged(first, second, shared, slice))
}

// Merges the sets that two lists of words declare, whose first `shared` devices are the same ones, into a lent slice.
pub fn merge(
    first: &[u32],
    second: &[u32],
    shared: usize,
    slice: &mut [u32],
) -> Result<usize, Refusal>
    ensures { merged_of result slice.new ≡ model.merge first.now second.now shared slice.old }
{
    let one = reader::accept(first)?;
    let two = reader::accept(second)?;
    merge_sets(&one, &two, shared, slice)
}
