// The calls of a case as they are read.
use crate::rounds::Bids;
use broker::Settings;
use records::Record;

// A call's words: its kind and three values.
pub const CALL_WORDS: usize = 4;

// A call's number of rounds is taken modulo this.
const ROUNDS_LIMIT: u32 = 0x1_0000;

#[derive(Clone, Copy)]
pub enum Call {
    // A bid by value.
    Bid {
        task: usize,
        settings: Settings,
    },
    Again,
    Route {
        length: usize,
    },
    Record(Record),
    Poke {
        rank: usize,
        byte: u8,
    },
    Lend {
        length: usize,
    },
    BidInPlace {
        task: usize,
        settings: Settings,
    },
    Rounds {
        times: u32,
        bids: Bids,
    },
    Locate {
        tasks: usize,
        state: [u8; model::MAX_TASKS],
    },
    Store {
        index: usize,
        word: u32,
    },
    Keep {
        length: usize,
    },
    Sweep {
        tasks: usize,
        last: [u8; model::MAX_TASKS],
    },
    Clean {
        length: usize,
    },
    Analyse,
    Counts([u8; model::MAX_TASKS]),
    Place {
        at: usize,
        tasks: [u8; model::MAX_TASKS],
    },
    Order {
        length: usize,
    },
    Trial {
        rounds: u16,
        settings: Settings,
    },
}

impl Call {
    // The call of this kind, by its number in tests/make_corpus.py; a kind that has none there is a bid by value.
    pub fn of(kind: u32, a: u32, b: u32, c: u32) -> Call {
        let number = a as usize;
        let settings = Settings {
            share: b,
            window: c,
        };
        let first = eight_of(a, b);
        let last = eight_of(b, c);
        match kind {
            1 => Call::Again,
            2 => Call::Route { length: number },
            3 => Call::Record(Record {
                positions: first,
                grants: c,
                counts: [0; model::MAX_TASKS],
            }),
            4 => Call::Poke {
                rank: number,
                byte: (b & 0xFF) as u8,
            },
            5 => Call::Lend { length: number },
            6 => Call::BidInPlace {
                task: number,
                settings,
            },
            7 => Call::Rounds {
                times: a,
                bids: Bids::of(b, c),
            },
            8 => Call::Locate {
                tasks: number,
                state: last,
            },
            9 => Call::Store {
                index: number,
                word: b,
            },
            10 => Call::Keep { length: number },
            11 => Call::Sweep {
                tasks: number,
                last,
            },
            12 => Call::Clean { length: number },
            13 => Call::Analyse,
            14 => Call::Counts(first),
            15 => Call::Place {
                at: number,
                tasks: last,
            },
            16 => Call::Order { length: number },
            17 => Call::Trial {
                rounds: (a % ROUNDS_LIMIT) as u16,
                settings,
            },
            _ => Call::Bid {
                task: number,
                settings,
            },
        }
    }
}

// Eight numbers of two words, a byte each.
fn eight_of(low: u32, high: u32) -> [u8; model::MAX_TASKS] {
    let [a, b, c, d] = low.to_le_bytes();
    let [e, f, g, h] = high.to_le_bytes();
    [a, b, c, d, e, f, g, h]
}
