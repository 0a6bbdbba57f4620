//! A look at what waits.
use medium::Side;

/// A frame that waits on a wire.
#[derive(Debug, Clone, Copy, PartialEq, Eq)]
pub struct WaitingFrame<'a> {
    /// The side that it waits for.
    pub side: Side,
    /// How many frames were put in after it.
    pub age: u16,
    pub bytes: &'a [u8],
}
