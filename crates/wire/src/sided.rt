//! Something for each side.
ghost use Rattle.std.specs.Prelude.{◌≡◌};
ghost use Rattle.std.specs.Borrow.{Lends, sem};
ghost use Rattle.wire.specs.Sided.{at, with_at};

use medium::Side;

/// One for the left side and one for the right.
#[derive(Drop)]
pub(crate) struct Sided<T> {
    pub(crate) left: T,
    pub(crate) right: T,
}

impl<T> Sided<T> {
    ghost use Rattle.wire.specs.contracts.sided.Sided.{the_row};

    /// The one for a side.
    pub(crate) fn get(&self, side: Side) -> &T
        ensures { result.now ≡ at side self.now }
    {
        match side {
            Side::Left => &self.left,
            Side::Right => &self.right,
        }
    }

    /// The one for a side, to change it where it is; the other stays as it is.
    pub(crate) fn get_mut(&mut self, side: Side) -> &mut T
        ensures* writes_back { sem 𝓛 (Lends (the_row T.row) T.row self.entry result (with_at side self.old)) }
        ensures value { result.now ≡ at side self.old }
    {
        match side {
            Side::Left => &mut self.left,
            Side::Right => &mut self.right,
        }
    }
}
