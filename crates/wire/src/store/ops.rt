//! What a store does, told by the list of its frames.
ghost use Rattle.std.specs.Prelude.{◌≡◌, [], length, drop};
ghost use Rattle.std.specs.List.{remove};
ghost use Rattle.medium.specs.Laws.{frame_given, Filled};
ghost use Rattle.medium.specs.Waiting.{fresh};
ghost use Rattle.ring.specs.Items.{items};
ghost use Rattle.wire.specs.Frames.{held, older, added, frame_at};
ghost use Rattle.wire.specs.Records.{last_put, Aged};

use super::Store;
use crate::carried::Carried;
use crate::record::{self, Record};
use crate::slot::{Slot, fill_at};
use medium::{LONGEST_FRAME, Side};
use ring::Ring;

/// The age at which a frame is gone.
const AGE_LIMIT: u16 = 2048;

impl Store {
    pub(crate) fn new() -> Store
        ensures { held result ≡ [] }
    {
        Store {
            puts: 0,
            ring: Ring::new(),
            records: record::numbered(),
            slots: [Slot::empty(); 64],
        }
    }

    /// How many frames wait here.
    pub(crate) fn count(&self) -> usize
        ensures { result ≡ length (held self.now) }
    {
        self.ring.count()
    }

    // Whether the oldest frame reaches the age limit with one more put.
    fn expires(&self) -> bool
        ensures { result ≡ last_put self.now.puts (items self.now.ring self.now.records) }
    {
        let oldest = self.ring.get(&self.records, 0);
        oldest.is_some_and(|record| record.age(self.puts) >= AGE_LIMIT - 1)
    }

    /// One more frame is put in, here or elsewhere: each frame is one older, and one that reaches the age limit is gone.
    pub(crate) fn pass(&mut self)
        ensures older { held self.new ≡ older (held self.old) }
        ensures aged { Aged self.new.puts (items self.new.ring self.new.records) }
    {
        let expired = self.expires();
        self.puts = self.puts.wrapping_add(1);
        if expired {
            self.ring.release();
        }
    }

    // The frame behind the others; it is lost where all slots are taken.
    fn add(&mut self, side: Side, frame: Carried)
        requires { Aged self.old.puts (items self.old.ring self.old.records) }
        ensures { held self.new ≡ added (fresh side frame.entry.bytes.now) (held self.old) }
    {
        let Some(at) = self.ring.claim() else {
            return;
        };
        let slot = self.records[at].slot;
        fill_at(&mut self.slots, slot as usize, frame);
        self.records[at] = Record {
            slot,
            stamp: self.puts,
            side,
        };
    }

    /// A frame is put in here.
    pub(crate) fn put(&mut self, side: Side, frame: Carried)
        ensures { held self.new ≡ added (fresh side frame.entry.bytes.now) (older (held self.old)) }
    {
        self.pass();
        self.add(side, frame);
    }

    /// Copies the frame at a distance from the oldest to the front of a place and answers its length.
    pub(crate) fn give(&self, distance: usize, place: &mut [u8; LONGEST_FRAME]) -> Option<usize>
        ensures frame { frame_given result place.new ≡ frame_at (held self.now) distance }
        ensures place { Filled result place.old place.new }
    {
        let record = self.ring.get(&self.records, distance)?;
        Some(self.slots[record.slot as usize].give(place))
    }

    /// The frame at a distance from the oldest leaves; the others stay in their order.
    pub(crate) fn remove(&mut self, distance: usize)
        ensures { held self.new ≡ remove (held self.old) distance }
    {
        if self.ring.bring_forward(&mut self.records, distance) {
            self.ring.release();
        }
    }

    /// Gives out the oldest frame.
    pub(crate) fn take_first(&mut self, place: &mut [u8; LONGEST_FRAME]) -> Option<usize>
        ensures frame { frame_given result place.new ≡ frame_at (held self.old) 0 }
        ensures place { Filled result place.old place.new }
        ensures left { held self.new ≡ drop 1 (held self.old) }
    {
        let given = self.give(0, place);
        self.remove(0);
        given
    }
}
