// How far a list of words has been read.
ghost use Rattle.std.specs.Prelude.{◌≡◌};
ghost use Rattle.model.specs.Read.{nothing_read};
ghost use Rattle.reader.specs.Follow.{scan_of};

// The devices and tasks of the words so far; entries of the arrays past the counts are 0. `held` says what the last task holds, `claimed` which devices some
// task has claimed. The limits of the counts are no ghost field, since `scan_of` of specs/Follow is a scan of any that the model has.
#[derive(Clone, Copy)]
pub(crate) struct Scan {
    pub(crate) devices: usize,
    pub(crate) capacities: [u8; model::MAX_DEVICES],
    pub(crate) tasks: usize,
    pub(crate) lengths: [u8; model::MAX_TASKS],
    pub(crate) starts: [usize; model::MAX_TASKS],
    pub(crate) held: [bool; model::MAX_DEVICES],
    pub(crate) claimed: [bool; model::MAX_DEVICES],
}

// Before the first word.
pub(crate) fn nothing() -> Scan
    ensures { result ≡ scan_of nothing_read }
{
    Scan {
        devices: 0,
        capacities: [0; model::MAX_DEVICES],
        tasks: 0,
        lengths: [0; model::MAX_TASKS],
        starts: [0; model::MAX_TASKS],
        held: [false; model::MAX_DEVICES],
        claimed: [false; model::MAX_DEVICES],
    }
}
