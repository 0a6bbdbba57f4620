//! Its rule as a medium.
ghost use Rattle.std.specs.Prelude.{◌≡◌, ◌%◌, ◌<◌, nat_le};
ghost use Rattle.medium.specs.Laws.{frame_given, Filled};
ghost use Rattle.wire.specs.Scripted.{row_of, choice, script_behind, given_chosen, take_chosen, scripted_empty, scripted_waiting, ScriptedPut, ScriptedTake};
ghost use Rattle.wire.specs.Scripting.{scripted_laws};

use super::ScriptedWire;
use crate::carried::Carried;
use crate::script::Script;
use crate::store::Store;
use medium::{LONGEST_FRAME, Medium, Side};

// Which of the frames for a side a script byte gives, where so many wait.
fn which(byte: u8, count: usize) -> usize
    requires { 0 < count }
    ensures { result ≡ byte % 128 % count }
{
    usize::from(byte % 128) % count
}

// Whether the frame that a script byte gives stays on the wire.
fn stays(byte: u8) -> bool
    ensures { result ≡ nat_le 128 byte }
{
    byte >= 128
}

impl ScriptedWire {
    /// A wire on which nothing waits, with a script of which nothing is used.
    pub fn new(script: Vec<u8>) -> ScriptedWire
        ensures empty { scripted_empty result }
        ensures script { (row_of result).script ≡ script.items }
    {
        ScriptedWire {
            store: Store::new(),
            script: Script::new(script),
        }
    }

    // What the script says of a take at a side: the frame, from the oldest of all, and whether it stays. These are two answers, and
    // neither says whether the other counts. No byte is used where nothing waits for the side.
    fn choose(&mut self, side: Side) -> Option<(usize, bool)>
        ensures answer { result ≡ choice side (row_of self.old) }
        ensures frames { (row_of self.new).frames ≡ (row_of self.old).frames }
        ensures script { (row_of self.new).script ≡ script_behind side (row_of self.old) }
    {
        let count = self.store.count_for(side);
        if count == 0 {
            return None;
        }
        let byte = self.script.next();
        let at = self.store.find(side, which(byte, count));
        Some((at, stays(byte)))
    }

    // Gives out the frame that the script chooses for a side.
    fn take_chosen(&mut self, side: Side, place: &mut [u8; LONGEST_FRAME]) -> Option<usize>
        ensures frame { frame_given result place.new ≡ given_chosen side (row_of self.old) }
        ensures place { Filled result place.old place.new }
        ensures left { row_of self.new ≡ take_chosen side (row_of self.old) }
    {
        let (at, stays) = self.choose(side)?;
        let given = self.store.give(at, place);
        if !stays {
            self.store.remove(at);
        }
        given
    }
}

impl Medium for ScriptedWire {
    ghost begins = { scripted_empty };

    ghost waiting = { scripted_waiting };

    ghost puts = { ScriptedPut };

    ghost takes = { ScriptedTake };

    ghost lawful = { scripted_laws };

    fn put(&mut self, from: Side, frame: &[u8]) {
        if let Some(frame) = Carried::new(frame) {
            self.store.put(from.other(), frame);
        }
    }

    fn take(&mut self, side: Side, place: &mut [u8]) -> Option<usize> {
        let front = place.first_chunk_mut::<LONGEST_FRAME>()?;
        self.take_chosen(side, front)
    }
}
