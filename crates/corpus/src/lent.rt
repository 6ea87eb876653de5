// A record that is lent, as a host lends its own.
ghost use Rattle.std.specs.Prelude.{◌≡◌};
ghost use Rattle.model.specs.Broker as model;
ghost use Rattle.records.specs.Says.{record_of};
ghost use Rattle.broker.specs.Says.{settings_of, served_bid_of};

use broker::{Bid, Served, Settings};
use records::Record;

// A bid over a local record: the answer, and what the record is afterwards.
pub fn bid(words: &[u32], map: &[u8], rec: Record, task: usize, settings: Settings) -> Served<Bid>
    ensures { served_bid_of result ≡ model.bid words.now map.now (settings_of settings) (record_of rec) task }
{
    let mut own = rec;
    let answer = broker::bid_in_place(&mut own, words, map, task, settings);
    Served { answer, after: own }
}
