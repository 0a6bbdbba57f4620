//! Places by their distance from the oldest element.
ghost use Rattle.std.specs.Prelude.{◌≡◌, ℕ, List, length};
ghost use Rattle.ring.specs.Span.{taken_at, free_at, longer, shorter};
ghost use Rattle.ring.specs.Items.{span_of, items, nothing};

use super::Ring;

impl Ring {
    /// How many places a ring has.
    pub const PLACES: usize = 64;

    /// A ring that holds nothing.
    pub fn new() -> Ring
        ensures { span_of result ≡ nothing }
    {
        Ring { head: 0, count: 0 }
    }

    /// How many elements the ring holds, whatever they are.
    pub fn count(&self) -> usize
        ensures span { result ≡ (span_of self.now).count }
        ensures items { (xs : List ℕ) → length xs ≡ 64 → result ≡ length (items self.now xs) }
    {
        let Ring { count, .. } = *self;
        count
    }

    /// The place of an element, or none where there is no element so far from the oldest.
    pub fn place(&self, distance: usize) -> Option<usize>
        ensures { result ≡ taken_at (span_of self.now) distance }
    {
        if distance >= self.count {
            return None;
        }
        Some((self.head + distance) % Ring::PLACES)
    }

    /// Takes one more place, behind the newest element, and answers which; none where all are taken. The caller fills it.
    pub fn claim(&mut self) -> Option<usize>
        ensures place { result ≡ free_at (span_of self.old) }
        ensures after { span_of self.new ≡ longer (span_of self.old) }
    {
        if self.count >= Ring::PLACES {
            return None;
        }
        let at = (self.head + self.count) % Ring::PLACES;
        self.count += 1;
        Some(at)
    }

    /// Gives up the place of the oldest element and answers which it was; none where the ring holds nothing.
    pub fn release(&mut self) -> Option<usize>
        ensures place { result ≡ taken_at (span_of self.old) 0 }
        ensures after { span_of self.new ≡ shorter (span_of self.old) }
    {
        if self.count == 0 {
            return None;
        }
        let at = self.head;
        self.head = (at + 1) % Ring::PLACES;
        self.count -= 1;
        Some(at)
    }
}
