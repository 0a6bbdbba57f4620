//! What is known of a waiting frame besides its bytes.
ghost use Rattle.std.specs.Prelude.{◌≡◌, length};
ghost use Rattle.wire.specs.Records.{age_at, Numbered};

use medium::Side;
use std::array;

/// A frame that waits.
#[derive(Clone, Copy)]
pub(crate) struct Record {
    /// The slot that has its bytes. (It is cast where it indexes: behind `usize::from` the goals of `give` and `peek` stayed open.)
    pub(crate) slot: u8,
    /// The count of puts when it was put in, which goes round at 65,536.
    pub(crate) stamp: u16,
    /// The side that it waits for.
    pub(crate) side: Side,
}

impl Record {
    /// How many frames were put in after it.
    pub(crate) fn age(self, puts: u16) -> u16
        ensures { result ≡ age_at puts self }
    {
        puts.wrapping_sub(self.stamp)
    }
}

/// A record for each slot, which names the slot of its own number.
pub(crate) fn numbered() -> [Record; 64]
    ensures length { length result ≡ 64 }
    ensures slots { Numbered 64 result }
{
    array::from_fn(|slot| Record {
        slot: slot as u8,
        stamp: 0,
        side: Side::Left,
    })
}
