//! Why bytes are no frame: the cause, the place of the header at fault, and the layer that noticed.
ghost use Rattle.std.specs.Prelude.{◌≡◌, Some};
ghost use Rattle.frame.specs.Numbers.{cause_number};
ghost use Rattle.frame.specs.Faults.{at as at_place, cause_of, place_of, layer_of, layer_text, fault_text};
ghost use Rattle.frame.specs.declared.fault.FrameFault.TheVariants.{Header};

use std::{error, fmt};

/// What is wrong, with its number.
#[derive(Debug, Clone, Copy, PartialEq, Eq)]
pub enum Cause {
    /// Fewer bytes than four, or than the packet size says.
    Short = 20,
    /// Ver is not 3.
    Version = 21,
    /// A reserved bit is set.
    Reserved = 22,
    /// Next names no header that may follow here.
    Next = 23,
    /// The packet size fits no frame of this form.
    Size = 24,
    /// A field lies outside its range.
    Range = 25,
}

impl From<Cause> for u8 {
    ghost from_gives = { λ cause n. n ≡ cause_number cause };

    fn from(cause: Cause) -> u8 {
        cause as u8
    }
}

impl Cause {
    /// The fault of a header at a place.
    pub(crate) fn at(self, place: u8) -> HeaderFault
        ensures { result ≡ at_place place self }
    {
        HeaderFault { cause: self, place }
    }
}

/// Who noticed.
#[derive(Debug, Clone, Copy, PartialEq, Eq)]
pub enum Layer {
    /// MAIN, which speaks of the whole frame.
    Frame,
    /// A later header.
    Header,
}

impl fmt::Display for Layer {
    ghost output = { λ layer. Some (layer_text layer) };

    fn fmt<W: fmt::Write>(&self, f: &mut fmt::Formatter<W>) -> fmt::Result {
        f.write_str(match self {
            Layer::Frame => "frame",
            Layer::Header => "header",
        })
    }
}

/// A fault in a header behind MAIN.
#[derive(Debug, Clone, Copy, PartialEq, Eq)]
pub struct HeaderFault {
    pub cause: Cause,
    /// The byte at which the header begins.
    pub place: u8,
}

/// Why bytes are no frame.
#[derive(Debug, Clone, Copy, PartialEq, Eq)]
pub enum FrameFault {
    /// In MAIN, at byte 0.
    Main(Cause),
    /// In a later header, passed on whole.
    Header(HeaderFault),
}

impl FrameFault {
    /// Why the bytes are no frame.
    pub fn cause(self) -> Cause
        ensures { result ≡ cause_of self }
    {
        match self {
            FrameFault::Main(cause) => cause,
            FrameFault::Header(fault) => fault.cause,
        }
    }

    /// The byte at which the header at fault begins.
    pub fn place(self) -> u8
        ensures { result ≡ place_of self }
    {
        match self {
            FrameFault::Main(_) => 0,
            FrameFault::Header(fault) => fault.place,
        }
    }

    /// The layer that noticed.
    pub fn layer(self) -> Layer
        ensures { result ≡ layer_of self }
    {
        match self {
            FrameFault::Main(_) => Layer::Frame,
            FrameFault::Header(_) => Layer::Header,
        }
    }
}

impl From<HeaderFault> for FrameFault {
    ghost from_gives = { λ h f. f ≡ Header h };

    fn from(fault: HeaderFault) -> FrameFault {
        FrameFault::Header(fault)
    }
}

impl fmt::Display for FrameFault {
    ghost output = { λ fault. Some (fault_text fault) };

    fn fmt<W: fmt::Write>(&self, f: &mut fmt::Formatter<W>) -> fmt::Result {
        let cause = u8::from(self.cause());
        let place = self.place();
        let layer = self.layer();
        write!(f, "fault {cause} place {place} layer {layer}")
    }
}

impl error::Error for FrameFault {}
