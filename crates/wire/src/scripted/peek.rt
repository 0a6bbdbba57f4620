//! A look at a scripted wire.
ghost use Rattle.std.specs.Prelude.{◌≡◌, length};
ghost use Rattle.std.specs.List.{slice_get};
ghost use Rattle.std.specs.Option.{option_map};
ghost use Rattle.wire.specs.Scripted.{scripted_waiting};
ghost use Rattle.wire.specs.Seen.{seen};

use super::ScriptedWire;
use crate::waiting::WaitingFrame;

impl ScriptedWire {
    /// How many frames wait.
    pub fn waiting(&self) -> usize
        ensures { result ≡ length (scripted_waiting self.now) }
    {
        self.store.count()
    }

    /// The frame at a distance from the oldest.
    pub fn peek(&self, distance: usize) -> Option<WaitingFrame<'_>>
        ensures { option_map seen result ≡ slice_get (scripted_waiting self.now) distance }
    {
        self.store.peek(distance)
    }
}
