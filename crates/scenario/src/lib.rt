//! The language of scenarios: what a line says, and the text of frames and bytes.
//! `Line::parse` reads a line; `Form` and `Hex` print what is answered, and `form_text` and `to_hex` make strings of it.
#![tactic(auto)]

mod draft;
mod form;
mod hex;
mod line;
mod words;
mod wrong;

pub use draft::{Draft, HeadDraft};
pub use form::{Form, form_text};
pub use hex::{Hex, from_hex, to_hex};
pub use line::Line;
pub use wrong::{Stop, Wrong};
