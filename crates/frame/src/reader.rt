//! Reads a frame: the headers one after the other, each checked in the order of the rules.
ghost use Rattle.std.specs.Prelude.{◌≡◌, ◌+◌, ◌<◌, ◌≤◌, length, IfOk};
ghost use Rattle.frame.specs.Fields.{head_fields, bit, answer};
ghost use Rattle.frame.specs.Reader.{word_at, field as bits_of, main_of, conn_of, ack_of, last_of, nack_of, udata_of, frag_of, behind_main, frame_of};
ghost use Rattle.frame.specs.Laws.{Means};

use crate::fault::{Cause, FrameFault, HeaderFault};
use crate::fields::{ConnId, ConnType, Fragment, Head, SeqNo, WindowExponent};
use crate::form::Frame;
use crate::header::{AckHeader, AfterAck, AfterMain, LAST, VERSION};
use crate::range::{conn_fits, count_fits, frag_fits, length_fits, udata_fits};

// The word of four bytes at a place.
fn word(bytes: &[u8], at: usize) -> u32
    requires { at + 4 ≤ length bytes.now }
    ensures { result ≡ word_at bytes.now at }
{
    u32::from_be_bytes([bytes[at], bytes[at + 1], bytes[at + 2], bytes[at + 3]])
}

// The field of a word whose lowest bit is `low`.
fn field(word: u32, low: u32, width: u32) -> u32
    requires low { low < 32 }
    requires width { width < 32 }
    ensures { result ≡ bits_of word low width }
{
    (word >> low) % (1 << width)
}

// M and Frag no, the lower half of the first word of UDATA and of FRAG.
fn read_fragment(word: u32) -> Fragment
    ensures more { bit result.more ≡ bits_of word 15 1 }
    ensures number { result.number ≡ bits_of word 0 15 }
{
    Fragment {
        more: field(word, 15, 1) == 1,
        number: field(word, 0, 15) as u16,
    }
}

/// MAIN, once it has passed its checks, with the bytes that it speaks of.
#[derive(Clone, Copy)]
struct Packet<'a> {
    bytes: &'a [u8],
    next: AfterMain,
    /// Conn ID
    to: ConnId,
    /// Packet size
    size: usize,
    ghost within: { size ≤ length bytes.now },
}

impl<'a> Packet<'a> {
    // not atop the file, which `Packet` imports: these definitions speak of `Packet`
    ghost use Rattle.frame.specs.Headers.{main_fields, main_answer, ack_answer};

    fn of(bytes: &'a [u8]) -> Result<Packet<'a>, FrameFault>
        ensures value { main_answer result ≡ main_of bytes.now }
        ensures same { IfOk result (λ p. p.bytes.now ≡ bytes.now) }
    {
        if bytes.len() < 4 {
            return Err(FrameFault::Main(Cause::Short));
        }
        let w = word(bytes, 0);
        let size = field(w, 0, 15) as usize;
        if bytes.len() < size {
            return Err(FrameFault::Main(Cause::Short));
        }
        if field(w, 25, 3) != VERSION {
            return Err(FrameFault::Main(Cause::Version));
        }
        if field(w, 24, 1) != 0 || field(w, 15, 1) != 0 {
            return Err(FrameFault::Main(Cause::Reserved));
        }
        let next = AfterMain::try_from(field(w, 28, 4)).map_err(|_| FrameFault::Main(Cause::Next))?;
        let to = ConnId(field(w, 16, 8) as u8);
        if next == AfterMain::Ack && to.0 == 0 {
            return Err(FrameFault::Main(Cause::Range));
        }
        Ok(Packet {
            bytes,
            next,
            to,
            size,
        })
    }

    fn ack(self) -> Result<AckHeader, HeaderFault>
        ensures { ack_answer result ≡ ack_of self.entry.bytes.now (main_fields self.entry) }
    {
        if self.size < 8 {
            return Err(Cause::Size.at(4));
        }
        let w = word(self.bytes, 4);
        if field(w, 24, 3) != 0 {
            return Err(Cause::Reserved.at(4));
        }
        let next = AfterAck::try_from(field(w, 28, 4)).map_err(|_| Cause::Next.at(4))?;
        let head = Head {
            to: self.to,
            request: field(w, 27, 1) == 1,
            ackno: SeqNo(field(w, 12, 12) as u16),
            seqno: SeqNo(field(w, 0, 12) as u16),
        };
        Ok(AckHeader { next, head })
    }

    fn conn(self) -> Result<Frame<'a>, HeaderFault>
        ensures { answer result ≡ conn_of self.entry.bytes.now (main_fields self.entry) }
    {
        if self.size < 8 {
            return Err(Cause::Size.at(4));
        }
        let w = word(self.bytes, 4);
        if field(w, 8, 12) != 0 {
            return Err(Cause::Reserved.at(4));
        }
        if field(w, 28, 4) != LAST {
            return Err(Cause::Next.at(4));
        }
        let to = self.to;
        let window = WindowExponent(field(w, 20, 4) as u8);
        let published = ConnId(field(w, 0, 8) as u8);
        let kind = ConnType::try_from(field(w, 24, 4) as u8).map_err(|_| Cause::Range.at(4))?;
        if !conn_fits(to, kind, window, published) {
            return Err(Cause::Range.at(4));
        }
        if self.size != 8 {
            return Err(Cause::Size.at(4));
        }
        Ok(Frame::Conn {
            to,
            kind,
            window,
            published,
        })
    }

    // ACK as the last header.
    fn last(self, head: Head) -> Result<Frame<'a>, HeaderFault>
        ensures { answer result ≡ last_of (main_fields self.entry) (head_fields head) }
    {
        if self.size != 8 {
            return Err(Cause::Size.at(4));
        }
        Ok(Frame::Ack { head })
    }

    fn nack(self, head: Head) -> Result<Frame<'a>, HeaderFault>
        ensures { answer result
            ≡ nack_of self.entry.bytes.now (main_fields self.entry) (head_fields head) }
    {
        if self.size < 12 {
            return Err(Cause::Size.at(8));
        }
        let w = word(self.bytes, 8);
        if field(w, 24, 4) != 0 || field(w, 12, 4) != 0 {
            return Err(Cause::Reserved.at(8));
        }
        if field(w, 28, 4) != LAST {
            return Err(Cause::Next.at(8));
        }
        let count = field(w, 16, 8) as u8;
        if !count_fits(count) {
            return Err(Cause::Range.at(8));
        }
        if self.size != 12 {
            return Err(Cause::Size.at(8));
        }
        let from = SeqNo(field(w, 0, 12) as u16);
        Ok(Frame::Nack { head, count, from })
    }

    // UDATA and FRAG differ in words, in ranges and in what they answer: one function for both would ask which at each check.
    fn udata(self, head: Head) -> Result<Frame<'a>, HeaderFault>
        ensures { answer result
            ≡ udata_of self.entry.bytes.now (main_fields self.entry) (head_fields head) }
    {
        if self.size < 20 {
            return Err(Cause::Size.at(8));
        }
        let w = word(self.bytes, 8);
        if field(w, 16, 12) != 0 || word(self.bytes, 12) != 0 {
            return Err(Cause::Reserved.at(8));
        }
        if field(w, 28, 4) != LAST {
            return Err(Cause::Next.at(8));
        }
        let fragment = read_fragment(w);
        if !udata_fits(fragment) {
            return Err(Cause::Range.at(8));
        }
        if !length_fits(0, fragment.more, self.size - 20) {
            return Err(Cause::Size.at(8));
        }
        let addresses = word(self.bytes, 16);
        Ok(Frame::Udata {
            head,
            fragment,
            dst: field(addresses, 16, 16) as u16,
            src: field(addresses, 0, 16) as u16,
            payload: &self.bytes[20..self.size],
        })
    }

    fn frag(self, head: Head) -> Result<Frame<'a>, HeaderFault>
        ensures { answer result
            ≡ frag_of self.entry.bytes.now (main_fields self.entry) (head_fields head) }
    {
        if self.size < 12 {
            return Err(Cause::Size.at(8));
        }
        let w = word(self.bytes, 8);
        if field(w, 16, 12) != 0 {
            return Err(Cause::Reserved.at(8));
        }
        if field(w, 28, 4) != LAST {
            return Err(Cause::Next.at(8));
        }
        let fragment = read_fragment(w);
        if !frag_fits(fragment) {
            return Err(Cause::Range.at(8));
        }
        if !length_fits(1, fragment.more, self.size - 12) {
            return Err(Cause::Size.at(8));
        }
        Ok(Frame::Frag {
            head,
            fragment,
            payload: &self.bytes[12..self.size],
        })
    }

    // The headers behind MAIN.
    fn behind(self) -> Result<Frame<'a>, HeaderFault>
        ensures { answer result ≡ behind_main self.entry.bytes.now (main_fields self.entry) }
    {
        // CONN by itself: as one of two arms, a program in C took up to half as much time again.
        if self.next == AfterMain::Conn {
            return self.conn();
        }
        let AckHeader { next, head } = self.ack()?;
        match next {
            AfterAck::Last => self.last(head),
            AfterAck::Nack => self.nack(head),
            AfterAck::Udata => self.udata(head),
            AfterAck::Frag => self.frag(head),
        }
    }
}

// Header after header, by the rules' order. `read` adds what that means: in here, that would be owed on each way out.
fn parse<'a>(bytes: &'a [u8]) -> Result<Frame<'a>, FrameFault>
    ensures { answer result ≡ frame_of bytes.now }
{
    Ok(Packet::of(bytes)?.behind()?)
}

/// Reads the frame at the front of the bytes; what lies behind its packet size is padding.
pub fn read<'a>(bytes: &'a [u8]) -> Result<Frame<'a>, FrameFault>
    ensures value { answer result ≡ frame_of bytes.now }
    ensures meaning { Means bytes.now (answer result) }
{
    parse(bytes)
}
