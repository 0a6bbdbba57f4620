//! Writes a frame to the front of a place.
ghost use Rattle.std.specs.Prelude.{◌≡◌, ◌+◌, ◌*◌, ◌<◌, ◌≤◌, true, [], ◌∷◌, ◌++◌, map, length, drop, Some};
ghost use Rattle.std.specs.List.{flat_map};
ghost use Rattle.frame.specs.Fields.{fields, head_fields, bit};
ghost use Rattle.frame.specs.Numbers.{type_number, ACK};
ghost use Rattle.frame.specs.Layout.{packed, main_row, conn_row, ack_row, nack_row, frag_row, address_row, big_endian, size};
ghost use Rattle.frame.specs.Headers.{after_main, after_ack};
ghost use Rattle.frame.specs.Ranges.{in_range};
ghost use Rattle.frame.specs.Writer.{written, placed, Wrote, refusal_text};
ghost use Rattle.frame.specs.Laws.{ReadsBack};

use crate::fields::{ConnId, ConnType, Fragment, Head, SeqNo, WindowExponent};
use crate::form::Frame;
use crate::header::{AfterAck, AfterMain, LAST, VERSION};
use crate::range::in_range;
use std::error::Error;
use std::fmt;

/// Why a frame is not written.
#[derive(Debug, Clone, Copy, PartialEq, Eq)]
pub enum Refusal {
    /// A field lies outside its range.
    Range,
    /// The place is shorter than the frame.
    Room,
}

impl fmt::Display for Refusal {
    ghost output = { λ refusal. Some (refusal_text refusal) };

    fn fmt<W: fmt::Write>(&self, f: &mut fmt::Formatter<W>) -> fmt::Result {
        f.write_str(match self {
            Refusal::Range => "a field lies outside its range",
            Refusal::Room => "the place is shorter than the frame",
        })
    }
}

impl Error for Refusal {}

fn main_word(next: AfterMain, to: ConnId, size: usize) -> [u8; 4]
    requires { size < 32768 }
    ensures { result ≡ big_endian (packed (main_row (after_main next) to.0 size)) }
{
    let main = ((next as u32) << 28) + (VERSION << 25) + (u32::from(to.0) << 16) + size as u32;
    main.to_be_bytes()
}

fn conn_word(kind: ConnType, window: WindowExponent, published: ConnId) -> [u8; 4]
    requires { window.0 < 16 }
    ensures { result ≡ big_endian (packed (conn_row (type_number kind) window.0 published.0)) }
{
    let conn = (LAST << 28)
        + ((kind as u32) << 24)
        + (u32::from(window.0) << 20)
        + u32::from(published.0);
    conn.to_be_bytes()
}

// Here and below, numbers in range are asked of the caller and are no part of `SeqNo`: the writer declines others, so they exist.
fn ack_word(next: AfterAck, head: Head) -> [u8; 4]
    requires ackno { head.ackno.0 ≤ 4095 }
    requires seqno { head.seqno.0 ≤ 4095 }
    ensures { result ≡ big_endian (packed (ack_row (after_ack next) (head_fields head))) }
{
    let ack = ((next as u32) << 28)
        + (u32::from(head.request) << 27)
        + (u32::from(head.ackno.0) << 12)
        + u32::from(head.seqno.0);
    ack.to_be_bytes()
}

fn nack_word(count: u8, from: SeqNo) -> [u8; 4]
    requires { from.0 ≤ 4095 }
    ensures { result ≡ big_endian (packed (nack_row count from.0)) }
{
    ((LAST << 28) + (u32::from(count) << 16) + u32::from(from.0)).to_be_bytes()
}

fn fragment_word(fragment: Fragment) -> [u8; 4]
    requires { fragment.number < 32768 }
    ensures { result ≡ big_endian (packed (frag_row (bit fragment.more) fragment.number)) }
{
    ((LAST << 28) + (u32::from(fragment.more) << 15) + u32::from(fragment.number)).to_be_bytes()
}

fn address_word(dst: u16, src: u16) -> [u8; 4]
    ensures { result ≡ big_endian (packed (address_row dst src)) }
{
    ((u32::from(dst) << 16) + u32::from(src)).to_be_bytes()
}

// Headers and payload to the front of the place; what lies behind stays.
fn put_frame(place: &mut [u8], headers: &[[u8; 4]], payload: &[u8]) -> usize
    requires { 4 * length headers.now + length payload.now ≤ length place.old }
    ensures value { result ≡ 4 * length headers.now + length payload.now }
    ensures after { place.new ≡ flat_map (λ w. w) headers.now ++ payload.now ++ drop result place.old }
{
    let headers = headers.as_flattened();
    let at = headers.len();
    let end = at + payload.len();
    place[..at].copy_from_slice(headers);
    place[at..end].copy_from_slice(payload);
    end
}

// MAIN and ACK, with which each form but CONN begins.
fn main_and_ack(next: AfterAck, head: Head, size: usize) -> [[u8; 4]; 2]
    requires size { size < 32768 }
    requires ackno { head.ackno.0 ≤ 4095 }
    requires seqno { head.seqno.0 ≤ 4095 }
    ensures { result ≡ map big_endian (map packed
        (main_row ACK head.to.0 size ∷ ack_row (after_ack next) (head_fields head) ∷ [])) }
{
    let main = main_word(AfterMain::Ack, head.to, size);
    [main, ack_word(next, head)]
}

// Writes a frame whose fields are in range and that has room.
fn write_fit(frame: Frame, place: &mut [u8]) -> usize
    requires range { in_range (fields frame) ≡ true }
    requires room { size (fields frame) ≤ length place.old }
    ensures { Wrote (fields frame.entry) place.old result place.new }
{
    let size = frame.size();
    match frame {
        Frame::Conn {
            to,
            kind,
            window,
            published,
        } => {
            let main = main_word(AfterMain::Conn, to, size);
            put_frame(place, &[main, conn_word(kind, window, published)], &[])
        }
        Frame::Ack { head } => put_frame(place, &main_and_ack(AfterAck::Last, head, size), &[]),
        Frame::Nack { head, count, from } => {
            let [main, ack] = main_and_ack(AfterAck::Nack, head, size);
            put_frame(place, &[main, ack, nack_word(count, from)], &[])
        }
        Frame::Udata {
            head,
            fragment,
            dst,
            src,
            payload,
        } => {
            let [main, ack] = main_and_ack(AfterAck::Udata, head, size);
            let fragment = fragment_word(fragment);
            let headers = [main, ack, fragment, [0; 4], address_word(dst, src)];
            put_frame(place, &headers, payload)
        }
        Frame::Frag {
            head,
            fragment,
            payload,
        } => {
            let [main, ack] = main_and_ack(AfterAck::Frag, head, size);
            put_frame(place, &[main, ack, fragment_word(fragment)], payload)
        }
    }
}

/// Writes a frame to the front of a place and answers its length.
pub fn write(frame: Frame, place: &mut [u8]) -> Result<usize, Refusal>
    ensures value { result ≡ written (fields frame.entry) place.old }
    ensures after { place.new ≡ placed result (fields frame.entry) place.old }
    ensures reads_back { ReadsBack result (fields frame.entry) place.new }
{
    if !in_range(frame) {
        return Err(Refusal::Range);
    }
    if place.len() < frame.size() {
        return Err(Refusal::Room);
    }
    Ok(write_fit(frame, place))
}
