//! The scripted wire.
use crate::script::Script;
use crate::store::Store;

mod ops;
mod peek;

/// Carries 64 frames in all and gives them out as its script says: late, twice, in another order. With the script spent, it
/// gives the oldest. It shows what a bad line does, over and over the same way.
#[derive(Drop)]
pub struct ScriptedWire {
    // what waits for either side
    store: Store,
    script: Script,
}
