//! Its rule as a medium.
ghost use Rattle.std.specs.Prelude.{◌≡◌, length};
ghost use Rattle.wire.specs.Order.{frames_for, InOrder};
ghost use Rattle.wire.specs.Straight.{straight_empty, straight_waiting, StraightPut, StraightTake};
ghost use Rattle.wire.specs.Straightness.{straight_laws};

use super::StraightWire;
use crate::carried::Carried;
use crate::sided::Sided;
use crate::store::Store;
use medium::{LONGEST_FRAME, Medium, Side};

impl StraightWire {
    /// A wire on which nothing waits.
    pub fn new() -> StraightWire
        ensures { straight_empty result }
    {
        StraightWire {
            queues: Sided {
                left: Store::new(),
                right: Store::new(),
            },
        }
    }

    /// How many frames wait for a side. Whatever is put and taken from here on, at either side: until a frame for the side
    /// reaches the age limit, what found room comes out there in the order put, unaltered, and none means that nothing waited.
    pub fn waiting(&self, side: Side) -> usize
        ensures answer { result ≡ length (frames_for side self.now) }
        ensures order { InOrder side self.now }
    {
        self.queues.get(side).count()
    }
}

impl Medium for StraightWire {
    ghost begins = { straight_empty };

    ghost waiting = { straight_waiting };

    ghost puts = { StraightPut };

    ghost takes = { StraightTake };

    ghost lawful = { straight_laws };

    fn put(&mut self, from: Side, frame: &[u8]) {
        let Some(frame) = Carried::new(frame) else {
            return;
        };
        let to = from.other();
        self.queues.get_mut(from).pass();
        self.queues.get_mut(to).put(to, frame);
    }

    fn take(&mut self, side: Side, place: &mut [u8]) -> Option<usize> {
        let front = place.first_chunk_mut::<LONGEST_FRAME>()?;
        self.queues.get_mut(side).take_first(front)
    }
}
