//! What every medium is.
ghost use Rattle.std.specs.Prelude.{ℕ, List, length, Option};
ghost use Rattle.medium.specs.declared.side.Side.{Side};
ghost use Rattle.medium.specs.Waiting.{Waiting};
ghost use Rattle.medium.specs.Laws.{Laws, frame_given, Filled};

use crate::side::Side;

/// A line with two sides. What it means is the list of frames that wait; what it does is its own rule of put and of take,
/// which keeps to `Laws`. It asks nothing of its callers.
pub trait Medium {
    // Holds of a medium as it is made.
    ghost begins: { Self → Type 0 };

    // What waits, for either side, each frame with its age.
    ghost waiting: { Self → List Waiting };

    // The rule of put: before, the putter's side, the frame, after.
    ghost puts: { Self → Side → List ℕ → Self → Type 0 };

    // The rule of take: before, the taker's side, the length of the place, the frame if one came out, after.
    ghost takes: { Self → Side → ℕ → Option (List ℕ) → Self → Type 0 };

    /// Puts a frame in at a side. It never refuses; frames may be lost or doubled.
    fn put(&mut self, from: Side, frame: &[u8])
        ensures { puts self.old from frame.now self.new };

    /// Copies a frame that waits for a side to the front of the place and answers its length, or none.
    fn take(&mut self, side: Side, place: &mut [u8]) -> Option<usize>
        ensures rule { takes self.old side (length place.old) (frame_given result place.new) self.new }
        ensures place { Filled result place.old place.new };

    // What every rule keeps to.
    ghost lawful: { Laws begins waiting puts takes };
}
