// The lines of the program slicewalk (document 01, "The walk program"): recorded claims, and where the engine puts them.
//
// `LineReader::feed` and `finish` are what the program calls: input in pieces of any size, one output line at a time. `step` is one
// line. All take any arguments. What a frame leaves and answers is left to `frames`, its digits and those of the answer to
// `lines`.
//
// A walk is lent, since its tables by value would be copied at every line.
#![tactic(auto)]

ghost use Rattle.std.specs.Prelude.{◌≡◌, ◌≤◌, length, take};
ghost use Rattle.lines.specs.Answers.{answer_bytes, Writes};
ghost use Rattle.claims.specs.State.{start as start·state};
ghost use Rattle.claims.specs.Answers.{state_of, Answers};
ghost use Rattle.walk.specs.Lines.{step as step·of, output_line, line_length, kept, feed as feed·of, finish as finish·of};
ghost use Rattle.walk.specs.Answers.{reader_of, Feeds};
ghost use Rattle.walk.specs.Theorems.{WalkLaws};

use claims::{MAP_ENTRIES, MOST_SLICES, Walk};
use lines::{OUTPUT_BYTES, WalkReply};
use model::Geometry;
use refusals::Refusal;

// ---- the document's numbers

// A frame has at most 513 bytes, and its line 1,026 digits; one byte more of a line is kept.
const FRAME_BYTES: usize = 513;

const LINE_DIGITS: usize = 2 * FRAME_BYTES;

pub const LINE_BYTES: usize = LINE_DIGITS + 1;

// ---- the calls

// Before the first line.
pub fn start() -> Walk
    ensures { state_of result ≡ start·state }
{
    Walk {
        geometry: Geometry { b: 0, s: 0, p: 0 },
        sized: false,
        shuffled: false,
        counted: 0,
        position: 0,
        start: 0,
        maps: [0u32; MAP_ENTRIES],
        owners: [0u8; MOST_SLICES],
        perm: [0u32; MOST_SLICES],
    }
}

// One line without its byte 0a; the output line, with its own, is put at the start of the output. Answers its length.
pub fn step(walk: &mut Walk, line: &[u8], out: &mut [u8; OUTPUT_BYTES]) -> usize
    ensures left { state_of walk.new ≡ (step·of (state_of walk.old) line.now).state }
    ensures printed { Writes (output_line (step·of (state_of walk.old) line.now)) out.old out.new result }
{
    let said = answer(walk, line);
    lines::print(said, out)
}

// What was done with a piece of input: how much of it was taken, and the length of the output line, 0 where the line goes on.
#[derive(Clone, Copy)]
pub struct Fed {
    pub taken: usize,
    pub length: usize,
}

// A walk, and what is kept of its unfinished line, at the start of an array: memory is fixed, there is no heap.
#[derive(Clone, Copy)]
pub struct LineReader {
    pub walk: Walk,
    pub line: [u8; LINE_BYTES],
    pub used: usize,
}

impl LineReader {
    // A piece of input up to the end of its first line, or its own end.
    pub fn feed(&mut self, piece: &[u8], out: &mut [u8; OUTPUT_BYTES]) -> Fed
        ensures { Feeds (feed·of (reader_of self.old) piece.now) (reader_of self.new) result.taken out.old out.new result.length }
    {
        let n = line_length(piece);
        self.keep(&piece[..n]);
        if n == piece.len() {
            return Fed {
                taken: n,
                length: 0,
            };
        }
        let taken = n + 1;
        let length = step(&mut self.walk, &self.line[..self.used], out);
        self.used = 0;
        Fed { taken, length }
    }

    // The end of the input: the output line of a last line without byte 0a, if there is one.
    pub fn finish(&mut self, out: &mut [u8; OUTPUT_BYTES]) -> usize
        ensures printed { Writes (finish·of (reader_of self.old)) out.old out.new result }
        ensures line { (self.new.line ≡ self.old.line) × (self.new.used ≡ self.old.used) }
    {
        if self.used == 0 {
            return 0;
        }
        let kept = self.used.min(LINE_BYTES);
        step(&mut self.walk, &self.line[..kept], out)
    }

    // More of a line behind what is kept of it, as far as 1,027 bytes go.
    fn keep(&mut self, more: &[u8])
        ensures line { take self.new.used self.new.line ≡ kept (take self.old.used self.old.line) more.now }
        ensures bound { self.new.used ≤ 1027 }
        ensures walk { self.new.walk ≡ self.old.walk }
    {
        let used = self.used.min(LINE_BYTES);
        let n = more.len().min(LINE_BYTES - used);
        self.line[used..used + n].copy_from_slice(&more[..n]);
        self.used = used + n;
    }
}

// The laws of the definitions: nothing runs, and the check has to prove them.
pub fn walk_laws()
    ensures { WalkLaws }
{}

// ---- one line

// The bytes before the first 0a.
fn line_length(piece: &[u8]) -> usize
    ensures { result ≡ line_length piece.now }
{
    piece
        .iter()
        .position(|&c| c == b'\n')
        .unwrap_or(piece.len())
}

// The answer to a line. A line of more than 1,026 digits is malformed whatever it holds.
fn answer(walk: &mut Walk, line: &[u8]) -> Result<WalkReply, Refusal>
    ensures { Answers (step·of (state_of walk.old) line.now) (state_of walk.new) (answer_bytes result) }
{
    if LINE_DIGITS < line.len() {
        return Err(Refusal::MalformedLine);
    }
    let mut frame = [0u8; FRAME_BYTES];
    match lines::decode(line, &mut frame) {
        Some(n) => frames::on_frame(walk, &frame[..n]),
        None => Err(Refusal::MalformedLine),
    }
}
