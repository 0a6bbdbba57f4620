//! The straight wire.
use crate::sided::Sided;
use crate::store::Store;

mod ops;
mod peek;

/// Carries 64 frames for each side in the order put, unaltered; loses a frame that finds no room, and one that reaches the
/// age limit.
#[derive(Drop)]
pub struct StraightWire {
    // what waits for each side
    queues: Sided<Store>,
}
