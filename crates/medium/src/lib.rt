//! The line between two ends, as an interface: frames are put in at one side and taken out at the other.
//! `Medium` is what code above is generic over; `put_all` shows what any medium makes of a row of frames.
//! Nothing here carries frames: `wire` has two media, and `lossy` shows how small one can be.
#![tactic(auto)]

mod chain;
mod interface;
mod lossy;
mod side;

pub use chain::put_all;
pub use interface::Medium;
pub use lossy::Lossy;
pub use side::{LONGEST_FRAME, Side};
