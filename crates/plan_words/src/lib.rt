// The words of a plan: how each kind but END is made and a side's word taken apart, which no other code knows, and the writing of words and boxes. For the crates that write
// plans, and the one that reads them.
#![tactic(auto)]

ghost use Rattle.std.specs.Prelude.{◌≡◌, cond, [], ◌∷◌, ◌≤◌, ◌<◌, length, take, set, eqb};
ghost use Rattle.model.specs.Layout.{word};
ghost use Rattle.model.specs.Hold.{within};
ghost use Rattle.model.specs.Plan.{FORBIDDEN_BOX, UNSAFE_BOX, side_word, side_of};
ghost use Rattle.model.specs.StoredPlan.{is_side};
ghost use Rattle.plan_words.specs.Words.{Wrote};

use set_words::Kind;

// Words with field 0.
const FORBIDDEN_WORD: u32 = Kind::ForbiddenBox as u32 * model::FIELDS;

const UNSAFE_WORD: u32 = Kind::UnsafeBox as u32 * model::FIELDS;

const SIDE_WORD: u32 = Kind::Side as u32 * model::FIELDS;

// A side's field is its task, lowest and highest position, a byte each.
const TASK_UNIT: u32 = 65536;

const LOW_UNIT: u32 = 256;

// The first word of a forbidden box of a device.
pub fn forbidden_box(device: u32) -> u32
    requires { device < 16 }
    ensures { result ≡ word FORBIDDEN_BOX device }
{
    FORBIDDEN_WORD + device
}

// The first word of an unsafe box.
pub fn unsafe_box() -> u32
    ensures { result ≡ word UNSAFE_BOX 0 }
{
    UNSAFE_WORD
}

// The word of a task over the positions from low to high. Its callers have at most eight tasks.
pub fn side(task: usize, low: u8, high: u8) -> u32
    requires { task < 256 }
    ensures { result ≡ side_word task (record { low = low; high = high }) }
{
    SIDE_WORD + (task as u32) * TASK_UNIT + (low as u32) * LOW_UNIT + high as u32
}

// The lowest position of a side.
pub fn side_low(side: u32) -> u8
    ensures { result ≡ (side_of side).low }
{
    (side / LOW_UNIT % LOW_UNIT) as u8
}

// The highest position of a side.
pub fn side_high(side: u32) -> u8
    ensures { result ≡ (side_of side).high }
{
    (side % LOW_UNIT) as u8
}

// Whether a word is the side of a task, its lowest position at most its highest.
pub fn is_side(word: u32, task: usize) -> bool
    requires { task < 256 }
    ensures { result ≡ is_side task word }
{
    let low = side_low(word);
    let high = side_high(word);
    if word != side(task, low, high) {
        return false;
    }
    low <= high
}

// Whether a position lies within a side.
pub fn side_holds(side: u32, position: u8) -> bool
    ensures { result ≡ within (side_of side) position }
{
    if position < side_low(side) {
        return false;
    }
    position <= side_high(side)
}

// The word that names a state by its rank, of a kind by its number.
pub fn rank_word(kind: u32, rank: usize) -> u32
    requires kind_bound { kind < 16 }
    requires rank_bound { rank < 65536 }
    ensures { result ≡ word kind rank }
{
    kind * model::FIELDS + rank as u32
}

// One word, written if it fits; the answer is the place after it, None where it doesn't fit.
pub fn put(plan: &mut [u32], at: usize, word: u32) -> Option<usize>
    requires { at ≤ length plan.old }
    ensures { Wrote plan.old at (word ∷ []) result plan.new }
{
    if at == plan.len() {
        return None;
    }
    plan[at] = word;
    Some(at + 1)
}

// The word of task j in a box where that of one task is given.
fn side_of(j: usize, task: usize, word: u32, side: u32) -> u32
    ensures { result ≡ cond (eqb j task) word side }
{
    if j == task { word } else { side }
}

// One box: its header, and the words of its first `count` sides, that of `task` in the place of the one among them; a task past them replaces none. The word is
// not stored there first, since to copy what was stored just before makes the processor wait. Where they don't fit nothing is written.
pub fn write_box(
    plan: &mut [u32],
    at: usize,
    header: u32,
    sides: &[u32; model::MAX_TASKS],
    count: usize,
    task: usize,
    word: u32,
) -> Option<usize>
    requires sides_len { length sides.now ≡ 8 }
    requires at_in_bounds { at ≤ length plan.old }
    requires count_bound { count ≤ 8 }
    ensures { Wrote plan.old at (header ∷ take count (set sides.now task word)) result plan.new }
{
    if plan.len() - at < count + 1 {
        return None;
    }
    plan[at] = header;
    for j in 0..count {
        plan[at + 1 + j] = side_of(j, task, word, sides[j]);
    }
    Some(at + 1 + count)
}
