//! Frames are copied once into a slot and once out of it.
ghost use Rattle.std.specs.Prelude.{◌≡◌, ◌<◌, ◌≤◌, [], ◌++◌, map, length, drop, slice_set};
ghost use Rattle.wire.specs.Content.{content};

use super::Slot;
use crate::carried::Carried;
use medium::LONGEST_FRAME;

// The bytes of `src` at the front of the place. A function of its own: a part of a field that stands beside a ghost field is not
// lent where it is.
fn lay(place: &mut [u8], src: &[u8])
    requires { length src.now ≤ length place.old }
    ensures { place.new ≡ src.now ++ drop (length src.now) place.old }
{
    let n = src.len();
    place[..n].copy_from_slice(src);
}

impl Slot {
    pub(crate) fn empty() -> Slot
        ensures { content result ≡ [] }
    {
        Slot {
            filled: 0,
            bytes: [0; LONGEST_FRAME],
        }
    }

    pub(crate) fn fill(&mut self, frame: Carried)
        ensures { content self.new ≡ frame.entry.bytes.now }
    {
        let bytes = frame.bytes();
        lay(&mut self.bytes, bytes);
        self.filled = bytes.len() as u16;
    }

    /// The frame, where it lies.
    pub(crate) fn frame(&self) -> &[u8]
        ensures { result.now ≡ content self.now }
    {
        let n = usize::from(self.filled);
        &self.bytes[..n]
    }

    /// Copies the frame to the front of a place and answers its length.
    pub(crate) fn give(&self, place: &mut [u8; LONGEST_FRAME]) -> usize
        ensures length { result ≡ length (content self.now) }
        ensures place { place.new ≡ content self.now ++ drop result place.old }
    {
        let n = usize::from(self.filled);
        place[..n].copy_from_slice(&self.bytes[..n]);
        n
    }
}

/// Fills one slot where it lies; the others stay as they are. A function of its own, since an element of a field that stands beside
/// a ghost field is not lent where it is.
pub(crate) fn fill_at(slots: &mut [Slot], at: usize, frame: Carried)
    requires { at < length slots.old }
    ensures { map content slots.new ≡ slice_set (map content slots.old) at frame.entry.bytes.now }
{
    slots[at].fill(frame);
}
