//! The smallest medium: a line that is cut.
ghost use Rattle.medium.specs.Lossy.{Begins, waiting_in, Loses, GivesNone};
ghost use mathlib.Core.List.Memᴰ;
ghost use Rattle.std.proofs.Common.{sym};
ghost use Rattle.std.proofs.lemmas.Option.{none-some};

use crate::interface::Medium;
use crate::side::Side;

/// A medium that loses every frame.
#[derive(Debug, Clone, Copy)]
pub struct Lossy;

impl Lossy {
    /// Nothing waits in it, then or later.
    pub fn new() -> Lossy
        ensures { Begins result }
    {
        Lossy
    }
}

impl Medium for Lossy {
    ghost begins = { Begins };

    ghost waiting = { waiting_in };

    ghost puts = { Loses };

    ghost takes = { GivesNone };

    // Where nothing waits and nothing comes out, every law has nothing to show.
    ghost lawful = { record {
      starts_empty = λ m begins. begins;
      put_ages = λ m from frame n put short x waits. absurd (Memᴰ.not-nil waits);
      put_long = λ m from frame n put long. put;
      take_due = λ m side room frame n took. absurd (none-some frame (sym took.0));
      take_keeps = λ m side room r n took x waits. waits;
      take_short = λ m side room r n took short. took;
    } };

    fn put(&mut self, from: Side, frame: &[u8]) {}

    fn take(&mut self, side: Side, place: &mut [u8]) -> Option<usize> {
        None
    }
}
