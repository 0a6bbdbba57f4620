//! The frames of a store that wait for one side.
ghost use Rattle.std.specs.Prelude.{◌≡◌, length};
ghost use Rattle.std.specs.List.{filter};
ghost use Rattle.wire.specs.Choice.{same_side, for_side, distance};
ghost use Rattle.wire.specs.Frames.{held};

use super::Store;
use crate::record::Record;
use medium::Side;

// How many of these records are of frames for a side.
fn count_in(records: &[Record], side: Side) -> usize
    ensures { result ≡ length (filter (λ r. same_side side r.side) records.now) }
{
    // No filter: its test would be a branch at each record, and the sides come in any order.
    let mut count = 0;
    for record in records {
        count += usize::from(record.side == side);
    }
    count
}

impl Store {
    /// How many frames wait for a side.
    pub(crate) fn count_for(&self, side: Side) -> usize
        ensures { result ≡ length (for_side side (held self.now)) }
    {
        let (front, back) = self.ring.as_slices(&self.records);
        count_in(front, side) + count_in(back, side)
    }

    /// Where the k-th frame for a side stands, from the oldest of all.
    pub(crate) fn find(&self, side: Side, k: usize) -> usize
        ensures { result ≡ distance side k (held self.now) }
    {
        let (front, back) = self.ring.as_slices(&self.records);
        let mut places = front
            .iter()
            .chain(back)
            .enumerate()
            .filter(|(_, record)| record.side == side);
        places.nth(k).map_or(self.count(), |(at, _)| at)
    }
}
