// The numbers of docs/SCOPE.md, by name. What they mean stands in specs/, and the theorems on it in proofs/.
#![tactic(auto)]

// The version of all that is built from here: major times 10,000, minor times 100, patch. CHANGELOG.md says what moves which.
pub const VERSION: u32 = 60000;

// The limits of a set.
pub const MAX_WORDS: usize = 4096;

pub const MAX_DEVICES: usize = 16;

pub const MAX_CAPACITY: u32 = 8;

pub const MAX_TASKS: usize = 8;

pub const MAX_ACTIONS: u8 = 255;

pub const MAX_GRID: u32 = 65536;

// A word is its kind times this, plus its field.
pub const FIELDS: u32 = 0x1000_0000;

// A CLAIM's field is its extra units, those beside the first, times this, plus its device; so many numbers of extra units and so many fields there are.
pub const DEVICES: u32 = 0x1_0000;

pub const EXTRA_UNITS: u32 = 0x100;

pub const CLAIM_FIELDS: u32 = 0x100_0000;

// The map's bytes.
pub const OPEN: u8 = 0;

pub const FORBIDDEN: u8 = 1;

pub const UNSAFE: u8 = 2;

pub const DEAD: u8 = 3;

// The largest share and the largest window.
pub const MAX_SETTING: u32 = 255;

// The longest order of a trial.
pub const MAX_ORDER: usize = 255;

// What is counted in parts per thousand is multiplied by this.
pub const THOUSAND: u32 = 1000;
