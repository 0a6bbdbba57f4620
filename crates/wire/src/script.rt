//! A script, used byte by byte.
ghost use Rattle.std.specs.Prelude.{◌≡◌, drop};
ghost use Rattle.wire.specs.Scripted.{script_left, next_byte};

use std::vec::IntoIter;

/// The bytes of a script that are still to come.
#[derive(Drop)]
pub(crate) struct Script(IntoIter<u8>);

impl Script {
    pub(crate) fn new(bytes: Vec<u8>) -> Script
        ensures { script_left result ≡ bytes.items }
    {
        Script(bytes.into_iter())
    }

    /// The next byte; 0 when all are used.
    pub(crate) fn next(&mut self) -> u8
        ensures byte { result ≡ next_byte (script_left self.old) }
        ensures left { script_left self.new ≡ drop 1 (script_left self.old) }
    {
        self.0.next().unwrap_or(0)
    }
}
