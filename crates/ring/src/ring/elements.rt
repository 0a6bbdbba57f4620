//! Elements by their distance from the oldest, told by the list that the ring stands for.
ghost use Rattle.std.specs.Prelude.{◌≡◌, ℕ, ◌&&◌, [], ◌∷◌, ◌++◌, drop, is_some, is_ok, if◌then◌else◌, ◌≢◌, slice_set};
ghost use Rattle.std.specs.List.{swap, slice_get};
ghost use Rattle.std.specs.Option.{option_map};
ghost use Rattle.std.specs.List.Sorted.{IsPermutation};
ghost use Rattle.ring.specs.Span.{spot, longer, shorter};
ghost use Rattle.ring.specs.Items.{is_places, span_of, items, up_to_end, has_room, holds, element_at, brought};

use super::{Full, Ring};

impl Ring {
    /// One more element, behind the newest.
    pub fn push<T: Copy>(&mut self, slots: &mut [T], x: T) -> Result<(), Full>
        ensures answer { is_ok result ≡ has_room self.old slots.old }
        ensures items { items self.new slots.new ≡ (if is_ok result then items self.old slots.old ++ x ∷ [] else items self.old slots.old) }
        ensures places { slots.new ≡ (if is_ok result then slice_set slots.old (spot (span_of self.old) self.old.count) x else slots.old) }
        ensures span { span_of self.new ≡ (if is_ok result then longer (span_of self.old) else span_of self.old) }
    {
        if slots.len() != Ring::PLACES {
            return Err(Full);
        }
        let at = self.claim().ok_or(Full)?;
        slots[at] = x;
        Ok(())
    }

    /// The element at a distance from the oldest.
    pub fn get<'a, T>(&self, slots: &'a [T], distance: usize) -> Option<&'a T>
        ensures { option_map (λ x. x.now) result ≡ element_at self.now slots.now distance }
    {
        if slots.len() != Ring::PLACES {
            return None;
        }
        let at = self.place(distance)?;
        Some(&slots[at])
    }

    /// The elements, oldest first, in two parts: those up to the last place, and those that go on at the first. Both are empty where
    /// the slice has not 64 places.
    pub fn as_slices<'a, T>(&self, slots: &'a [T]) -> (&'a [T], &'a [T])
        ensures items { result.0.now ++ result.1.now ≡ (if is_places slots.now then items self.now slots.now else []) }
        ensures first { result.0.now ≡ (if is_places slots.now then up_to_end self.now slots.now else []) }
    {
        if slots.len() != Ring::PLACES {
            return (&[], &[]);
        }
        let (front, back) = slots.split_at(self.head);
        if self.count <= back.len() {
            (&back[..self.count], &[])
        } else {
            (back, &front[..self.count - back.len()])
        }
    }

    /// Puts another element in the place of one; none of the others changes. Answers whether there was one to replace.
    pub fn set<T: Copy>(&self, slots: &mut [T], distance: usize, x: T) -> bool
        ensures answer { result ≡ holds self.now slots.old distance }
        ensures items { items self.now slots.new ≡ (if result then slice_set (items self.now slots.old) distance x else items self.now slots.old) }
        ensures others { (k : ℕ) → (k ≢ distance) → slice_get (items self.now slots.new) k ≡ slice_get (items self.now slots.old) k }
        ensures places { slots.new ≡ (if result then slice_set slots.old (spot (span_of self.now) distance) x else slots.old) }
    {
        if slots.len() != Ring::PLACES {
            return false;
        }
        let Some(at) = self.place(distance) else {
            return false;
        };
        slots[at] = x;
        true
    }

    /// Swaps two elements. Answers whether there were two.
    pub fn swap<T>(&self, slots: &mut [T], i: usize, j: usize) -> bool
        ensures answer { result ≡ (holds self.now slots.old i && holds self.now slots.old j) }
        ensures items { items self.now slots.new ≡ (if result then swap (items self.now slots.old) i j else items self.now slots.old) }
        ensures places { slots.new ≡ (if result then swap slots.old (spot (span_of self.now) i) (spot (span_of self.now) j) else slots.old) }
    {
        if slots.len() != Ring::PLACES {
            return false;
        }
        let (Some(p), Some(q)) = (self.place(i), self.place(j)) else {
            return false;
        };
        slots.swap(p, q);
        true
    }

    /// Makes an element the oldest: those that were older stand behind it now, in their order. Answers whether there was one.
    pub fn bring_forward<T>(&self, slots: &mut [T], distance: usize) -> bool
        ensures answer { result ≡ holds self.now slots.old distance }
        ensures items { (d : T) → items self.now slots.new ≡ (if result then brought (items self.now slots.old) distance d else items self.now slots.old) }
        ensures places { IsPermutation slots.old slots.new }
    {
        if slots.len() != Ring::PLACES || distance >= self.count {
            return false;
        }
        for at in (0..distance).rev() {
            self.swap(slots, at, at + 1);
        }
        true
    }

    /// The oldest element, which leaves the ring.
    pub fn pop<T: Copy>(&mut self, slots: &[T]) -> Option<T>
        ensures answer { result ≡ element_at self.old slots.now 0 }
        ensures items { items self.new slots.now ≡ drop (if is_some result then 1 else 0) (items self.old slots.now) }
        ensures span { span_of self.new ≡ (if is_some result then shorter (span_of self.old) else span_of self.old) }
    {
        if slots.len() != Ring::PLACES {
            return None;
        }
        let at = self.release()?;
        Some(slots[at])
    }
}
