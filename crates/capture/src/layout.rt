//! The parts of a capture's headers, byte for byte.
ghost use Rattle.std.specs.Prelude.{◌≡◌, ◌+◌, ◌++◌, length};
ghost use Rattle.capture.specs.Format.{record_header, ethernet_header, address_end, frame_header};

use medium::Side;

// Packets are a microsecond apart. A packet is kept whole, so both lengths are the same.
fn record_header(number: u64, len: u16) -> [u8; 16]
    ensures { result ≡ record_header number len }
{
    let [s0, s1, s2, s3] = ((number / 1_000_000 % 0x1_0000_0000) as u32).to_be_bytes();
    let [u0, u1, u2, u3] = ((number % 1_000_000) as u32).to_be_bytes();
    let [l0, l1, l2, l3] = (14 + u32::from(len)).to_be_bytes();
    [
        // seconds
        s0, s1, s2, s3,
        // microseconds
        u0, u1, u2, u3,
        // the length that is kept
        l0, l1, l2, l3,
        // the length that it had
        l0, l1, l2, l3,
    ]
}

// The addresses of the two ends differ in their last byte only.
fn address_end(side: Side) -> u8
    ensures { result ≡ address_end side }
{
    match side {
        Side::Left => 0x0a,
        Side::Right => 0x0b,
    }
}

fn ethernet_header(from: Side) -> [u8; 14]
    ensures { result ≡ ethernet_header from }
{
    let to = address_end(from.other());
    let source = address_end(from);
    [2, 0, 0, 0, 0, to, 2, 0, 0, 0, 0, source, 0x89, 0x11]
}

// A record's header, and then the packet's.
pub(crate) fn packet_header(number: u64, from: Side, len: u16) -> [u8; 30]
    ensures { result ≡ frame_header number from len }
{
    let mut header = [0; 30];
    header[..16].copy_from_slice(&record_header(number, len));
    header[16..].copy_from_slice(&ethernet_header(from));
    header
}
