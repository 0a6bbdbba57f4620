//! The ring itself. Its operations stand in modules of their own.
ghost use Rattle.std.specs.Prelude.{◌<◌, ◌≤◌};

mod cursor;
mod elements;

/// A ring that holds all it can, or a slice that has not 64 places.
#[derive(Debug, Clone, Copy, PartialEq, Eq)]
pub struct Full;

/// Which of 64 places are taken: `count` of them, from `head` on, round the end.
// The places are passed at each call: one ring is for every slice, also for one in a field beside the ring, which it could not borrow.
#[derive(Debug, Clone, Copy)]
pub struct Ring {
    // the place of the oldest element
    head: usize,
    // how many elements there are
    count: usize,
    ghost start: { head < 64 },
    ghost few: { count ≤ 64 },
}
