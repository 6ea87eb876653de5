// What a walk has seen of a plan's words so far.
ghost use Rattle.std.specs.Prelude.{◌≡◌};
ghost use Rattle.plan_reader.specs.Walk.{before, last_box, nothing_found};

use crate::Location;
use set_words::Kind;

#[derive(Clone, Copy)]
pub(crate) struct Seen {
    // The kind of the last box or rank.
    pub(crate) section: Kind,
    // How many sides the last box has so far; the task count where none is missing.
    pub(crate) sides: usize,
    // The lowest rank that may come next of the kind in `section`.
    pub(crate) least: u32,
    // Where the last box begins, and whether its sides so far hold the state and no box before it does.
    pub(crate) start: usize,
    pub(crate) holds: bool,
    // The first box that holds the state, Neither so far if none does. Forbidden boxes come first in the layout, so the first box found is the answer.
    pub(crate) found: Location,
}

impl Seen {
    // Before the first word.
    pub(crate) fn before(tasks: usize) -> Self
        ensures { result ≡ before tasks }
    {
        Self {
            section: Kind::ForbiddenBox,
            sides: tasks,
            least: 0,
            start: 0,
            holds: false,
            found: Location::Neither,
        }
    }

    // The answer where the last box is the first that holds the state.
    pub(crate) fn last_box(self) -> Location
        ensures { result ≡ last_box self }
    {
        match self.section {
            Kind::ForbiddenBox => Location::Forbidden { index: self.start },
            _ => Location::Unsafe { index: self.start },
        }
    }

    // Whether no box so far holds the state.
    pub(crate) fn nothing_found(self) -> bool
        ensures { result ≡ nothing_found self.found }
    {
        matches!(self.found, Location::Neither)
    }
}
