// A task's row: how many of its bids were answered in each of four ways. Those answered Finished are counted beside the rows.
ghost use Rattle.std.specs.Prelude.{◌≡◌, ◌<◌, ◌≤◌};
ghost use Rattle.model.specs.Trial.{row_with};
ghost use Rattle.broker.specs.Says.{named};
ghost use Rattle.trial.specs.Says.{tallied};

use broker::Bid;

// Laid out as C does, since hosts get it.
#[repr(C)]
#[derive(Clone, Copy, Default)]
pub struct Tally {
    pub granted: u32,
    pub busy: u32,
    pub held: u32,
    pub share_spent: u32,
}

impl Tally {
    // The row with one more answer of its task: Finished has no place in it.
    pub(crate) fn with(self, bid: Bid) -> Self
        requires { (self.granted < 4294967295) × (self.busy < 4294967295) × (self.held < 4294967295) × (self.share_spent < 4294967295) }
        ensures { tallied result ≡ row_with (named bid) (tallied self) }
    {
        match bid {
            Bid::Granted => Self {
                granted: self.granted + 1,
                ..self
            },
            Bid::Busy { .. } => Self {
                busy: self.busy + 1,
                ..self
            },
            Bid::Held { .. } => Self {
                held: self.held + 1,
                ..self
            },
            Bid::ShareSpent => Self {
                share_spent: self.share_spent + 1,
                ..self
            },
            Bid::Finished => self,
        }
    }
}
