//! The fields of a frame, as types that say what they are.
ghost use Rattle.std.specs.Prelude.{◌≡◌, Some};
ghost use Rattle.frame.specs.Numbers.{type_number, type_or_number, no_type_text};

use std::error::Error;
use std::fmt;

/// A connection number: 1 to 255, and 0 where there is none.
#[derive(Debug, Clone, Copy, PartialEq, Eq)]
pub struct ConnId(pub u8);

/// A sequence number: 0 to 4,095.
#[derive(Debug, Clone, Copy, PartialEq, Eq)]
pub struct SeqNo(pub u16);

impl SeqNo {
    /// The largest: numbers are counted mod 4,096.
    pub const MAX: u16 = 4095;
}

/// A window exponent w, 0 to 5: the window is 2^w pieces.
#[derive(Debug, Clone, Copy, PartialEq, Eq)]
pub struct WindowExponent(pub u8);

impl WindowExponent {
    pub const MAX: u8 = 5;
}

/// What a CONN frame does, with its number in the Type field.
#[derive(Debug, Clone, Copy, PartialEq, Eq)]
pub enum ConnType {
    /// Asks for a connection and publishes the sender's number.
    Connect = 1,
    /// Agrees, and publishes the sender's number in turn.
    ConnectAck = 2,
    /// Confirms that the agreement arrived.
    Ack = 3,
    /// Ends the connection.
    Reset = 4,
}

/// A number that no type of CONN frame has.
#[derive(Debug, Clone, Copy, PartialEq, Eq)]
pub struct UnknownType(pub u8);

impl fmt::Display for UnknownType {
    ghost output = { λ unknown. Some (no_type_text unknown.0) };

    fn fmt<W: fmt::Write>(&self, f: &mut fmt::Formatter<W>) -> fmt::Result {
        write!(f, "no type has the number {}", self.0)
    }
}

impl Error for UnknownType {}

impl From<ConnType> for u8 {
    ghost from_gives = { λ kind n. n ≡ type_number kind };

    fn from(kind: ConnType) -> u8 {
        kind as u8
    }
}

impl TryFrom<u8> for ConnType {
    type Error = UnknownType;

    ghost try_from_gives = { λ n r. r ≡ type_or_number n };

    fn try_from(number: u8) -> Result<ConnType, UnknownType> {
        match number {
            1 => Ok(ConnType::Connect),
            2 => Ok(ConnType::ConnectAck),
            3 => Ok(ConnType::Ack),
            4 => Ok(ConnType::Reset),
            _ => Err(UnknownType(number)),
        }
    }
}

/// Where a piece stands in its message, as the header says it.
// No enum of whole, first, middle and last: the writer declines numbers out of range, so such values must exist.
#[derive(Debug, Clone, Copy, PartialEq, Eq)]
pub struct Fragment {
    /// M: more pieces follow.
    pub more: bool,
    /// Frag no: the piece's number in its message, or 32,767 for a whole message.
    pub number: u16,
}

impl Fragment {
    /// The number of a message that is one piece.
    pub const WHOLE: u16 = 32767;

    /// The highest number of a piece: sixteen make the longest message.
    pub const LAST: u16 = 15;
}

/// The fields that ACK, NACK, UDATA and FRAG frames begin with.
#[derive(Debug, Clone, Copy, PartialEq, Eq)]
pub struct Head {
    /// Conn ID: the receiver's connection number.
    pub to: ConnId,
    /// R: an answer is requested.
    pub request: bool,
    /// Ackno: the next sequence number that the sender of this frame waits for.
    pub ackno: SeqNo,
    /// Seqno: the number of the piece carried, or of the next new one.
    pub seqno: SeqNo,
}
