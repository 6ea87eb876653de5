// The broker's record, and what every call on a record finds out first: whether the map is too short, whether the record fits the set, and the rank of its state.
#![tactic(auto)]

mod counts;

ghost use Rattle.std.specs.Prelude.{◌≡◌, ℕ, ◌<◌, ltb, List, length, nat_lt};
ghost use Rattle.model.specs.Below.{any};
ghost use Rattle.model.specs.Set.{Set, lengths_of, at, size};
ghost use Rattle.model.specs.State.{is_end, sum, rank};
ghost use Rattle.model.specs.Record.{fresh, state_in, misplaced, miscounted, unfit};
ghost use Rattle.model.specs.Broker.{grant, restart};
ghost use Rattle.shape.specs.Declares.{Declares};
ghost use Rattle.records.specs.Says.{record_of};

use shape::Shape;

// Each task's position, the grant number, and each task's grants in the present window, 0 for absent tasks: twenty bytes, laid out as C does, since hosts keep it.
#[repr(C)]
#[derive(Clone, Copy)]
pub struct Record {
    pub positions: [u8; model::MAX_TASKS],
    pub grants: u32,
    pub counts: [u8; model::MAX_TASKS],
}

impl Record {
    pub const TASKS: usize = model::MAX_TASKS;

    // The map's bytes.
    pub const OPEN: u8 = model::OPEN;

    pub const FORBIDDEN: u8 = model::FORBIDDEN;

    pub const UNSAFE: u8 = model::UNSAFE;

    pub const DEAD: u8 = model::DEAD;

    pub fn fresh() -> Self
        ensures { record_of result ≡ fresh }
    {
        Self {
            positions: [0; Self::TASKS],
            grants: 0,
            counts: [0; Self::TASKS],
        }
    }

    // The record after a grant to a task that has actions left, where the window has grants left.
    pub fn granted(self, task: usize, window: u32) -> Self
        requires { (task < 8) × (at self.positions task < 255) × (at self.counts task < 255) }
        ensures { record_of result ≡ grant window (record_of self) task }
    {
        let mut positions = self.positions;
        positions[task] += 1;
        Self {
            positions,
            grants: self.grants.wrapping_add(1),
            counts: counts::counted(self.counts, task, window),
        }
    }

    // How many grants the present window has had.
    pub fn used(self) -> u32
        ensures { result ≡ sum self.counts }
    {
        counts::total(self.counts)
    }

    // The record after an again at the end: every task starts anew, the counts are cleared, and the grant number stays.
    pub fn restarted(self) -> Self
        ensures { record_of result ≡ restart (record_of self) }
    {
        let mut next = Self::fresh();
        next.grants = self.grants;
        next
    }
}

// Whether some number is over the other array's.
fn some_above(numbers: [u8; model::MAX_TASKS], limits: [u8; model::MAX_TASKS]) -> bool
    ensures { result ≡ any 8 (λ t. ltb (at limits t) (at numbers t)) }
{
    numbers
        .iter()
        .zip(&limits)
        .any(|(number, limit)| limit < number)
}

// Whether the map has fewer bytes than there are states.
pub fn too_short(map: &[u8], shape: Shape) -> bool
    ensures { (words : List ℕ) (s : Set) → Declares words shape s → result ≡ nat_lt (length map.now) (size (lengths_of s)) }
{
    map.len() < shape.grid
}

// Whether a position is over its task's length; an absent task's length counts as 0.
fn misplaced(rec: Record, shape: Shape) -> bool
    ensures { (words : List ℕ) (s : Set) → Declares words shape s → result ≡ misplaced s (record_of rec) }
{
    some_above(rec.positions, shape.lengths)
}

// Whether an absent task has a count.
fn miscounted(rec: Record, shape: Shape) -> bool
    requires { (words : List ℕ) × (s : Set) × Declares words shape s }
    ensures { (words : List ℕ) (s : Set) → Declares words shape s → result ≡ miscounted s (record_of rec) }
{
    counts::some_from(rec.counts, shape.tasks)
}

// Whether the record doesn't fit the set.
pub fn unfit(rec: Record, shape: Shape) -> bool
    requires { (words : List ℕ) × (s : Set) × Declares words shape s }
    ensures { (words : List ℕ) (s : Set) → Declares words shape s → result ≡ unfit s (record_of rec) }
{
    misplaced(rec, shape) || miscounted(rec, shape)
}

// Whether no task has actions left.
pub fn at_end(rec: Record, shape: Shape) -> bool
    ensures { (words : List ℕ) (s : Set) → Declares words shape s → result ≡ is_end (lengths_of s) (state_in s (record_of rec)) }
{
    !some_above(shape.lengths, rec.positions)
}

// The rank of the record's state.
pub fn rank_of(rec: Record, shape: Shape) -> usize
    requires { (words : List ℕ) × (s : Set) × Declares words shape s }
    ensures { (words : List ℕ) (s : Set) → Declares words shape s → result ≡ rank (lengths_of s) (state_in s (record_of rec)) }
{
    let tasks = shape.tasks;
    let weights = shape.weights;
    let positions = rec.positions;
    let mut rank: usize = 0;
    for t in 0..tasks {
        rank += positions[t] as usize * weights[t];
    }
    rank
}
