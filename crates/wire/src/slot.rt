//! The bytes of one frame, in a place that holds every frame.
ghost use Rattle.std.specs.Prelude.{◌≡◌, ◌≤◌, length};
ghost use Rattle.medium.specs.Waiting.{longest_frame};

mod ops;

use medium::LONGEST_FRAME;
pub(crate) use ops::fill_at;

/// A frame's bytes at the front of a place; what stands behind them means nothing.
// No `ArrayVec`: its `clear` writes blanks over the frame that was there, so each put would write more.
#[derive(Clone, Copy)]
pub(crate) struct Slot {
    filled: u16,
    bytes: [u8; LONGEST_FRAME],
    ghost wide: { length bytes ≡ longest_frame },
    ghost fits: { filled ≤ longest_frame },
}
