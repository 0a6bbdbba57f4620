//! A look at the frames of a store.
ghost use Rattle.std.specs.Prelude.{◌≡◌};
ghost use Rattle.std.specs.List.{slice_get};
ghost use Rattle.std.specs.Option.{option_map};
ghost use Rattle.wire.specs.Frames.{held};
ghost use Rattle.wire.specs.Seen.{seen};

use super::Store;
use crate::waiting::WaitingFrame;

impl Store {
    /// The frame at a distance from the oldest, as it lies in its slot.
    pub(crate) fn peek(&self, distance: usize) -> Option<WaitingFrame<'_>>
        ensures { option_map seen result ≡ slice_get (held self.now) distance }
    {
        let record = self.ring.get(&self.records, distance)?;
        let bytes = self.slots[record.slot as usize].frame();
        Some(WaitingFrame {
            side: record.side,
            age: record.age(self.puts),
            bytes,
        })
    }
}
