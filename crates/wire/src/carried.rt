//! Frames that a wire carries.
ghost use Rattle.std.specs.Prelude.{◌≡◌, ◌<◌, ◌≤◌, length, MatchOption};
ghost use Rattle.medium.specs.Waiting.{longest_frame};

use medium::LONGEST_FRAME;

/// A frame that is not too long.
#[derive(Clone, Copy)]
pub(crate) struct Carried<'a> {
    bytes: &'a [u8],
    ghost short: { length bytes.now ≤ longest_frame },
}

impl<'a> Carried<'a> {
    /// None where the frame is too long.
    pub(crate) fn new(frame: &'a [u8]) -> Option<Carried<'a>>
        ensures { MatchOption result (longest_frame < length frame.now) (λ f. f.bytes.now ≡ frame.now) }
    {
        if frame.len() > LONGEST_FRAME {
            return None;
        }
        Some(Carried { bytes: frame })
    }

    /// Its bytes, where they lie.
    pub(crate) fn bytes(self) -> &'a [u8]
        ensures { result.now ≡ self.entry.bytes.now }
    {
        self.bytes
    }
}
