//! A look at a straight wire.
ghost use Rattle.std.specs.Prelude.{◌≡◌};
ghost use Rattle.std.specs.List.{slice_get};
ghost use Rattle.std.specs.Option.{option_map};
ghost use Rattle.wire.specs.Seen.{seen};
ghost use Rattle.wire.specs.Straight.{queue, queues_of};

use super::StraightWire;
use crate::waiting::WaitingFrame;
use medium::Side;

impl StraightWire {
    /// The frame at a distance from the oldest of those that wait for a side.
    pub fn peek(&self, side: Side, distance: usize) -> Option<WaitingFrame<'_>>
        ensures { option_map seen result ≡ slice_get (queue side (queues_of self.now)) distance }
    {
        let frame = self.queues.get(side).peek(distance);
        frame.map(|frame| WaitingFrame { side, ..frame })
    }
}
