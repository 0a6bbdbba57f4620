//! A row of frames, put into a medium.
ghost use Rattle.std.specs.Prelude.{map};
ghost use Rattle.medium.specs.Chain.{Puts, Chained};

use crate::interface::Medium;
use crate::side::Side;

/// Puts the frames in at a side, one after the other. Whatever the medium makes of each by its own rule, what waits afterwards waited before
/// and has aged by the frames that were not too long, or is one of these, as old as there were such frames behind it.
pub fn put_all<M: Medium>(medium: &mut M, from: Side, frames: &[&[u8]])
    ensures rule { Puts M.Medium.puts from (map (λ f. f.now) frames.now) medium.old medium.new }
    ensures chain { Chained from (map (λ f. f.now) frames.now) (M.Medium.waiting medium.old) (M.Medium.waiting medium.new) }
{
    for frame in frames {
        medium.put(from, *frame);
    }
}
