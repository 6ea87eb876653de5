// The kinds of words.
ghost use Rattle.std.specs.Prelude.{◌≡◌};
ghost use Rattle.set_words.specs.Kinds.{kind_named, number_of};

// What a word is, by the number in its top four bits: the first five in a set, the others and End in a plan.
#[derive(Clone, Copy, Debug, PartialEq, Eq, PartialOrd, Ord)]
pub enum Kind {
    Device = 1,
    Task = 2,
    Claim = 3,
    Release = 4,
    End = 5,
    ForbiddenBox = 6,
    UnsafeBox = 7,
    Side = 8,
    DeadState = 9,
    UnreachedState = 10,
}

impl Kind {
    // The number that stands for it.
    pub fn number(self) -> u32
        ensures { result ≡ number_of self }
    {
        self as u32
    }

    // The kind that a number stands for.
    pub(crate) fn named(number: u32) -> Option<Self>
        ensures { result ≡ kind_named number }
    {
        match number {
            1 => Some(Self::Device),
            2 => Some(Self::Task),
            3 => Some(Self::Claim),
            4 => Some(Self::Release),
            5 => Some(Self::End),
            6 => Some(Self::ForbiddenBox),
            7 => Some(Self::UnsafeBox),
            8 => Some(Self::Side),
            9 => Some(Self::DeadState),
            10 => Some(Self::UnreachedState),
            _ => None,
        }
    }
}
