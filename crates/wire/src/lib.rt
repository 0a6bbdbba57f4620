//! Two media: the straight wire, which keeps order and loses only what finds no room, and the scripted wire, which loses,
//! doubles and reorders as a script says. Both keep their frames in a `Store`.
#![tactic(auto)]

mod carried;
mod record;
mod script;
mod scripted;
mod sided;
mod slot;
mod store;
mod straight;
mod waiting;

pub use scripted::ScriptedWire;
pub use straight::StraightWire;
pub use waiting::WaitingFrame;
