//! A ring of 64 places over a slice, for every kind of element.
//! `Ring` knows where the oldest element lies and how many there are; the places are a slice that its owner keeps beside it
//! and passes at each call. So an owner can fill a place where it lies (`claim`, `place`), or have elements copied (`push`,
//! `get`, `set`, `pop`). `as_slices` shows them all, oldest first.
#![tactic(auto)]

mod kinds;
mod ring;

pub use kinds::pass_two;
pub use ring::{Full, Ring};
