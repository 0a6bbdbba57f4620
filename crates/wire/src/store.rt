//! Up to 64 frames that wait, in the order put.
ghost use Rattle.std.specs.Prelude.{◌≡◌, ◌<◌, true, length};
ghost use Rattle.ring.specs.Items.{items};
ghost use Rattle.wire.specs.Records.{slots_named, Slotted, Single, falling};

use crate::record::Record;
use crate::slot::Slot;
use ring::Ring;

mod choice;
mod ops;
mod peek;

/// Frames in slots, which they never leave, and a ring of records that has their order. Only the first can be too old,
/// since the ages fall from the oldest on; so a put looks at one frame.
#[derive(Drop)]
pub(crate) struct Store {
    // how many frames were put in, here or elsewhere; goes round at 65,536
    puts: u16,
    ring: Ring,
    // Two arrays of fixed size, since there is no heap and a frame's bytes never move: the waiting frames' records stand where the
    // ring says, and those elsewhere name the free slots.
    records: [Record; 64],
    slots: [Slot; 64],
    ghost places: { length records ≡ 64 },
    ghost wide: { length slots ≡ 64 },
    ghost slotted: { Slotted (slots_named records) },
    ghost single: { Single (slots_named records) },
    ghost low: { puts < 65536 },
    ghost young: { falling puts 2048 (items ring records) ≡ true },
}
