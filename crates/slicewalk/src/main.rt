// slicewalk: reads lines from standard input, each a frame in hexadecimal, and writes one answer line for each to standard
// output (document 01, "The walk program"). The lines are those of crate `walk`; this program reads and writes.
#![tactic(auto)]

ghost use Rattle.std.specs.Prelude.{◌≡◌, ◌≤◌, length, OnOk};

use lines::OUTPUT_BYTES;
use std::io::Read;
use std::{fmt, io};
use walk::{LINE_BYTES, LineReader};

// The bytes of input that are read at a time, and of output that wait at most.
const PIECE_BYTES: usize = 65_536;

// Output that waits, at the start of an array: memory is fixed, and std's `BufWriter` takes an allocator.
#[derive(Drop)]
struct Sink {
    bytes: [u8; PIECE_BYTES],
    waiting: usize,
    ghost fits: { waiting ≤ 65536 },
}

impl Sink {
    // Writes what waits.
    fn flush(&mut self, to: &impl Print) -> io::Result<()>
        ensures { OnOk result (self.new.waiting ≡ 0) }
    {
        to.write_all(&self.bytes[..self.waiting])?;
        self.waiting = 0;
        Ok(())
    }

    // A line behind what waits, which is written first where there is no room.
    fn put(&mut self, to: &impl Print, line: &[u8]) -> io::Result<()>
        requires { length line.now ≤ 27 }
    {
        if PIECE_BYTES - self.waiting < line.len() {
            self.flush(to)?;
        }
        let end = self.waiting + line.len();
        self.bytes[self.waiting..end].copy_from_slice(line);
        self.waiting = end;
        Ok(())
    }
}

// A stream that failed.
#[derive(Drop)]
enum Failure {
    Input(io::Error),
    Output(io::Error),
}

impl fmt::Display for Failure {
    fn fmt<W: fmt::Write>(&self, f: &mut fmt::Formatter<W>) -> fmt::Result {
        match self {
            Failure::Input(error) => write!(f, "standard input: {error}"),
            Failure::Output(error) => write!(f, "standard output: {error}"),
        }
    }
}

// A piece of input, line by line; what waits is written at its end, so that every line read has its answer.
fn walk_piece(
    to: &impl Print,
    reader: &mut LineReader,
    sink: &mut Sink,
    piece: &[u8],
) -> io::Result<()> {
    let mut out = [0u8; OUTPUT_BYTES];
    let mut rest = piece;
    // A while: a turn takes as much as the line has.
    while 0 < rest.len() {
        let fed = reader.feed(rest, &mut out);
        sink.put(to, &out[..fed.length])?;
        rest = &rest[fed.taken..];
    }
    sink.flush(to)
}

// All of the input. A proved loop has to end, and nothing says that the input does: its turns are more than any run makes. A
// failure ends the walk, and a line that is unfinished then is not answered.
fn walk_all(from: &mut impl Read, to: &impl Print) -> Result<(), Failure> {
    let mut reader = LineReader {
        walk: walk::start(),
        line: [0u8; LINE_BYTES],
        used: 0,
    };
    let mut sink = Sink {
        bytes: [0u8; PIECE_BYTES],
        waiting: 0,
    };
    let mut input = [0u8; PIECE_BYTES];
    for _ in 0..u64::MAX {
        let n = from.read(&mut input).map_err(Failure::Input)?;
        if n == 0 {
            break;
        }
        walk_piece(to, &mut reader, &mut sink, &input[..n]).map_err(Failure::Output)?;
    }
    let mut out = [0u8; OUTPUT_BYTES];
    let n = reader.finish(&mut out);
    to.write_all(&out[..n]).map_err(Failure::Output)
}

fn main(rt: HostRuntime) {
    if let Err(failure) = walk_all(&mut rt.stdin(), &rt) {
        // Where that cannot be written either, there is nowhere left to say it.
        let _ = eprintln!(rt; "slicewalk: {failure}");
    }
}
