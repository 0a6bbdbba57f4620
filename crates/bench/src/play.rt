//! Plays the lines of a scenario and answers each call.
ghost use Rattle.std.specs.Prelude.{◌≡◌, ◌+◌, ◌-◌, ◌^◌, ◌≤◌, ◌++◌, min, length, drop, IfOk, Ok, string_bytes, codes};
ghost use Rattle.std.specs.Option.{option_map};
ghost use Rattle.frame.specs.Fields.{fields, answer};
ghost use Rattle.frame.specs.Reader.{frame_of};
ghost use Rattle.scenario.specs.Draft.{fields_of};
ghost use Rattle.scenario.specs.Hex.{hexed};
ghost use Rattle.scenario.specs.Lines.{read, said, said_by};
ghost use Rattle.bench.specs.Answer.{read_text, cread_text, write_text, answer_of, wrong_line, printed, ReadsBack, WritesBack};
ghost use Rattle.scenario.specs.Wrong.{wrong_text};

use frame::{Frame, FrameFault};
use scenario::{Draft, Form, Hex, Line, Stop, Wrong};
use std::alloc::{AllocError, Global};

/// The longest frame: 20 bytes of headers and 256 of payload.
const LONGEST: usize = 20 + frame::PIECE;

// The text of what the reader answered.
fn read_text(heap: Global, read: Result<Frame, FrameFault>) -> Result<String, AllocError>
    ensures { IfOk result (λ s. string_bytes s ≡ read_text (answer read.entry)) }
{
    match read {
        Ok(frame) => format!(in heap; "read -> {}", Form(frame)),
        Err(fault) => format!(in heap; "read -> {fault}"),
    }
}

// What reading bytes as a frame answers.
fn read_line(heap: Global, bytes: &[u8]) -> Result<String, AllocError>
    ensures value { IfOk result (λ s. string_bytes s ≡ read_text (frame_of bytes.now)) }
    ensures writes_back { IfOk result (λ s. WritesBack (frame_of bytes.now) (string_bytes s)) }
{
    read_text(heap, frame::read(bytes))
}

// What a caller from C is told of the same bytes.
fn cread_line(heap: Global, bytes: &[u8]) -> Result<String, AllocError>
    ensures { IfOk result (λ s. string_bytes s ≡ cread_text bytes.now) }
{
    format!(in heap; "cread -> {}", frame::linx_frame_read(bytes))
}

// Bytes that were written. Typed behind `read`, what is printed says the same bytes.
fn bytes_line(heap: Global, bytes: &[u8]) -> Result<String, AllocError>
    ensures value { IfOk result (λ s. string_bytes s ≡ codes "write -> " ++ hexed bytes.now) }
    ensures typed { IfOk result (λ s. said_by (codes "read " ++ drop 9 (string_bytes s)) ≡ Ok (read bytes.now)) }
{
    format!(in heap; "write -> {}", Hex(bytes))
}

// The frame's bytes, by way of a place that holds every frame.
fn frame_line(heap: Global, frame: Frame, place: &mut [u8; LONGEST]) -> Result<String, AllocError>
    ensures value { IfOk result (λ s. string_bytes s ≡ write_text (fields frame.entry)) }
    ensures reads_back { IfOk result (λ s. ReadsBack (fields frame.entry) (string_bytes s)) }
{
    match frame::write(frame, place) {
        Ok(length) => bytes_line(heap, &place[..length]),
        Err(_) => String::from_str(heap, "write -> none"),
    }
}

// The bytes of the frame that a form asks for.
fn write_line(heap: Global, draft: &Draft) -> Result<String, AllocError>
    ensures value { IfOk result (λ s. string_bytes s ≡ write_text (fields_of draft.now)) }
    ensures reads_back { IfOk result (λ s. ReadsBack (fields_of draft.now) (string_bytes s)) }
{
    let Some(frame) = draft.frame() else {
        return String::from_str(heap, "write -> none");
    };
    let mut place = [0u8; LONGEST];
    frame_line(heap, frame, &mut place)
}

// What a line prints, if anything.
fn reply(heap: Global, line: Line) -> Result<Option<String>, AllocError>
    ensures { IfOk result (λ o. option_map string_bytes o ≡ answer_of (said line)) }
{
    match line {
        Line::Nothing => Ok(None),
        Line::Read(bytes) => Ok(Some(read_line(heap, bytes.as_slice())?)),
        Line::Cread(bytes) => Ok(Some(cread_line(heap, bytes.as_slice())?)),
        Line::Write(draft) => Ok(Some(write_line(heap, &draft)?)),
    }
}

// What is wrong with the line of a number.
fn wrong_line(heap: Global, number: u64, wrong: Wrong) -> Result<String, AllocError>
    ensures { IfOk result (λ s. string_bytes s ≡ wrong_line number (wrong_text wrong.entry)) }
{
    format!(in heap; "line {number}: {wrong}")
}

/// The state of a play: how many lines were played.
#[derive(Drop)]
pub struct Player {
    lines: u64,
}

impl Player {
    /// No line was played yet.
    pub fn new() -> Player
        ensures { result.lines ≡ 0 }
    {
        Player { lines: 0 }
    }

    /// Plays the next line and answers what it prints, if anything.
    pub fn play(&mut self, heap: Global, line: &str) -> Result<Option<String>, AllocError>
        ensures counted { self.new.lines ≡ min (self.old.lines + 1) (2 ^ 64 - 1) }
        ensures printed { IfOk result (λ o. option_map string_bytes o ≡ printed self.new.lines (said_by line.now)) }
    {
        self.lines = self.lines.saturating_add(1);
        match Line::parse(heap, line) {
            Ok(line) => reply(heap, line),
            Err(Stop::Wrong(wrong)) => Ok(Some(wrong_line(heap, self.lines, wrong)?)),
            Err(Stop::Memory(error)) => Err(error),
        }
    }
}
