//! Bytes as text: two upper-case digits for each byte, `-` for none.
ghost use Rattle.std.specs.Prelude.{◌≡◌, ◌<◌, ◌≤◌, ◌++◌, length, IfOk, Some, Ok, vec_items, string_bytes, codes};
ghost use Rattle.std.specs.Fmt.{WritesOnOk};
ghost use Rattle.std.specs.List.{flat_map};
ghost use Rattle.std.specs.Option.{option_map};
ghost use Rattle.scenario.specs.Lines.{read, said_by};
ghost use Rattle.scenario.specs.Hex.{digit_of, pair_of, hexed, nibble_of, byte_of, paired, unhexed};

use std::alloc::{AllocError, Global};
use std::{fmt, str};

// The digit of a value. By hand, so that an edit can get a letter wrong and be refused.
fn digit(value: u8) -> u8
    requires { value < 16 }
    ensures value { result ≡ digit_of value }
    ensures ascii { result < 128 }
{
    if value < 10 {
        b'0' + value
    } else {
        b'A' + (value - 10)
    }
}

// The digits of a few bytes, in one piece: one by one, a line with many bytes takes the bench twice the time.
fn write_row<W: fmt::Write>(f: &mut fmt::Formatter<W>, bytes: &[u8]) -> fmt::Result
    requires { length bytes.now ≤ 32 }
    ensures { WritesOnOk W.write_str_gives f.old result (flat_map pair_of bytes.now) f.new }
{
    let mut row = [[0; 2]; 32];
    for (i, byte) in bytes.iter().enumerate() {
        row[i] = [digit(byte / 16), digit(byte % 16)];
    }
    let Ok(digits) = str::from_utf8(row[..bytes.len()].as_flattened()) else {
        unreachable!();
    };
    f.write_str(digits)
}

/// Bytes, printed as two upper-case digits each, or as `-` for none.
#[derive(Clone, Copy)]
pub struct Hex<'a>(pub &'a [u8]);

impl fmt::Display for Hex<'_> {
    ghost output = { λ x. Some (hexed x.0.now) };

    fn fmt<W: fmt::Write>(&self, f: &mut fmt::Formatter<W>) -> fmt::Result {
        if self.0.is_empty() {
            return f.write_str("-");
        }
        for bytes in self.0.chunks(32) {
            write_row(f, bytes)?;
        }
        Ok(())
    }
}

/// The text of bytes. Read back, it gives the same bytes; so does a line that has it behind `read`.
pub fn to_hex(heap: Global, bytes: &[u8]) -> Result<String, AllocError>
    ensures value { IfOk result (λ s. string_bytes s ≡ hexed bytes.now) }
    ensures reads_back { IfOk result (λ s. unhexed (string_bytes s) ≡ Some bytes.now) }
    ensures typed { IfOk result (λ s. said_by (codes "read " ++ string_bytes s) ≡ Ok (read bytes.now)) }
{
    format!(in heap; "{}", Hex(bytes))
}

// The value of a digit. By match: `to_digit` would take lower-case letters too.
fn nibble(digit: u8) -> Option<u8>
    ensures { result ≡ nibble_of digit }
{
    match digit {
        b'0'..=b'9' => Some(digit - b'0'),
        b'A'..=b'F' => Some(digit - b'A' + 10),
        _ => None,
    }
}

fn byte(high: u8, low: u8) -> Option<u8>
    ensures { result ≡ byte_of (nibble_of high) (nibble_of low) }
{
    Some(nibble(high)? * 16 + nibble(low)?)
}

// The bytes of a row of pairs, which a pattern takes off one by one; with `as_chunks` there would be an odd rest to keep besides.
fn bytes_of(heap: Global, digits: &[u8]) -> Result<Option<Vec<u8>>, AllocError>
    ensures { IfOk result (λ o. option_map vec_items o ≡ paired digits.now) }
{
    let mut bytes = Vec::new(heap);
    let mut rest = digits;
    while let [high, low, tail @ ..] = rest {
        let Some(byte) = byte(*high, *low) else {
            return Ok(None);
        };
        bytes.push(byte)?;
        rest = tail;
    }
    Ok(rest.is_empty().then_some(bytes))
}

/// The bytes that a text stands for: upper-case pairs, or `-` for none.
pub fn from_hex(heap: Global, text: &str) -> Result<Option<Vec<u8>>, AllocError>
    ensures { IfOk result (λ o. option_map vec_items o ≡ unhexed text.now) }
{
    match text.as_bytes() {
        [] => Ok(None),
        [b'-'] => Ok(Some(Vec::new(heap))),
        digits => bytes_of(heap, digits),
    }
}
