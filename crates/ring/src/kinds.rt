//! The ring at work: one function for every kind of element, and the kinds that its users have.
ghost use Rattle.std.specs.Prelude.{◌≡◌, [], ◌∷◌, if◌then◌else◌, Some, None, slice_set};
ghost use Rattle.std.specs.Option.{option_map};
ghost use Rattle.ring.specs.Items.{is_places, items, span_of};

use crate::ring::Ring;

// A new ring that holds two elements, in the first two places.
fn take_two<T: Copy>(slots: &mut [T], first: T, second: T) -> Option<Ring>
    ensures span { option_map span_of result ≡ (if is_places slots.old then Some (record { head = 0; count = 2 }) else None) }
    ensures items { option_map (λ ring. items ring slots.new) result ≡ (if is_places slots.old then Some (first ∷ second ∷ []) else None) }
    ensures places { slots.new ≡ (if is_places slots.old then slice_set (slice_set slots.old 0 first) 1 second else slots.old) }
{
    let mut ring = Ring::new();
    ring.push(slots, first).ok()?;
    ring.push(slots, second).ok()?;
    Some(ring)
}

/// Two elements pass through a new ring, and on the way another takes the place of the older. Answers the one that gave way and
/// the two that came out, in their order; none where the slice has not 64 places.
pub fn pass_two<T: Copy>(slots: &mut [T], first: T, second: T, instead: T) -> Option<(T, T, T)>
    ensures answer { result ≡ (if is_places slots.old then Some (first, instead, second) else None) }
    ensures places { slots.new ≡ (if is_places slots.old then slice_set (slice_set (slice_set slots.old 0 first) 1 second) 0 instead else slots.old) }
{
    let mut ring = take_two(slots, first, second)?;
    let oldest = ring.count() - 2;
    let replaced = *ring.get(slots, oldest)?;
    ring.set(slots, oldest, instead);
    let older = ring.pop(slots)?;
    let newer = ring.pop(slots)?;
    Some((replaced, older, newer))
}

// A piece of a message.
#[derive(Clone, Copy)]
struct Piece {
    more: bool,
    length: u16,
    bytes: [u8; 256],
}

// A frame that waits, by the slot of its bytes and the count of puts when it came.
#[derive(Clone, Copy)]
struct Entry {
    slot: u8,
    stamp: u16,
}

// Pieces that wait to be put, copied in and out whole.
fn pieces(first: Piece, second: Piece, instead: Piece) -> Option<(Piece, Piece, Piece)>
    ensures { result ≡ Some (first, instead, second) }
{
    pass_two(&mut [first; 64], first, second, instead)
}

// Two places for pieces that come in, of which the older is filled.
fn places(piece: Piece) -> Option<(Option<Piece>, Option<Piece>, Option<Piece>)>
    ensures { result ≡ Some (None, Some piece, None) }
{
    pass_two(&mut [None; 64], None, None, Some(piece))
}

// Records of waiting frames, of which the older gets a new stamp.
fn entries(first: Entry, second: Entry, stamp: u16) -> Option<(Entry, Entry, Entry)>
    ensures { result ≡ Some (first, record { slot = first.slot; stamp = stamp }, second) }
{
    let instead = Entry {
        slot: first.slot,
        stamp,
    };
    pass_two(&mut [first; 64], first, second, instead)
}
