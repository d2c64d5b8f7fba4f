// A line of the program slicewalk by itself (document 01, "The walk program"): the bytes that it spells in lowercase
// hexadecimal, and the output line of an answer.
//
// What a frame means is left to `frames`, how lines stand in an input to `walk`.
#![tactic(auto)]

ghost use Rattle.std.specs.Prelude.{◌≡◌, [], ◌∷◌, ◌++◌, ◌+◌, ◌*◌, ◌≤◌, ◌<◌, length, MatchOption};
ghost use Rattle.lines.specs.Hexadecimal.{value as value·of, digit as digit·of, digits as digits·of, decode as decode·of};
ghost use Rattle.lines.specs.Answers.{served, answer_bytes, spelt_in, count_in, Writes};

use refusals::Refusal;

// The longest output line: 13 bytes in hexadecimal, and byte 0a.
pub const OUTPUT_BYTES: usize = 27;

// A line that is served: an accepted frame 01 or 02, or a frame 03 with its values.
#[derive(Clone, Copy)]
pub enum WalkReply {
    Accepted,
    Served {
        slice: usize,
        block: usize,
        probes: usize,
        position: usize,
    },
}

// ---- hexadecimal

// The number that a digit stands for, `None` of a byte that is no digit. By hand, since `char::to_digit` of std takes uppercase too. One
// test of 16 at the end: an `Option` from each branch makes a line of random digits take more than twice as long.
#[tactic(auto, using(std::proofs::lemmas::Bool::Decides::nat_tests), unfolding(crate::specs::Hexadecimal::value))]
fn value(c: u8) -> Option<u8>
    ensures { MatchOption result (16 ≤ value·of c) (λ v. (v ≡ value·of c) × (v < 16)) }
{
    let n = if b'0' <= c && c <= b'9' {
        c - b'0'
    } else if b'a' <= c && c <= b'f' {
        c - b'a' + 10
    } else {
        16
    };
    if n < 16 { Some(n) } else { None }
}

// The digit of a number. By hand, since `char::from_digit` of std gives an `Option` of a `char`, which is no plainer.
fn digit(n: u8) -> u8
    requires { n < 16 }
    ensures { result ≡ digit·of n }
{
    if n < 10 { b'0' + n } else { b'a' - 10 + n }
}

// The bytes that a line of at most 1,026 digits spells, at the start of the frame: how many, or `None` where the line is not
// hexadecimal or has an odd number of digits. A count and no part of the frame, since the contract speaks of the whole frame.
pub fn decode(line: &[u8], frame: &mut [u8]) -> Option<usize>
    requires { (length line.now ≤ 1026) × (length frame.old ≡ 513) }
    ensures line_value { decode·of line.now ≡ spelt_in result frame.new }
    ensures result_bound { count_in result ≤ 513 }
{
    let n = line.len() / 2;
    if 2 * n != line.len() {
        return None;
    }
    for i in 0..n {
        let h = value(line[2 * i])?;
        let l = value(line[2 * i + 1])?;
        frame[i] = 16 * h + l;
    }
    Some(n)
}

// The digits of bytes and byte 0a, at the start of the output.
fn print_bytes(bytes: &[u8], out: &mut [u8]) -> usize
    requires { 2 * length bytes.now + 1 ≤ length out.old }
    ensures { Writes (digits·of bytes.now ++ (10 ∷ [])) out.old out.new result }
{
    for (i, b) in bytes.iter().enumerate() {
        out[2 * i] = digit(*b / 16);
        out[2 * i + 1] = digit(*b % 16);
    }
    let end = 2 * bytes.len();
    out[end] = b'\n';
    end + 1
}

// ---- output

// The bytes of a served frame 03's answer.
fn served_bytes(slice: usize, block: usize, probes: usize, position: usize) -> [u8; 13]
    ensures { result ≡ served slice block probes position }
{
    let s = slice.to_be_bytes();
    let b = block.to_be_bytes();
    let n = probes.to_be_bytes();
    let p = position.to_be_bytes();
    [
        0, s[6], s[7], b[4], b[5], b[6], b[7], n[6], n[7], p[4], p[5], p[6], p[7],
    ]
}

// The output line of an answer, at the start of the output; answers its length.
pub fn print(answer: Result<WalkReply, Refusal>, out: &mut [u8; OUTPUT_BYTES]) -> usize
    ensures { Writes (digits·of (answer_bytes answer) ++ (10 ∷ [])) out.old out.new result }
{
    match answer {
        Ok(WalkReply::Accepted) => print_bytes(&[0u8], out),
        Ok(
            WalkReply::Served {
                slice,
                block,
                probes,
                position,
            },
        ) => print_bytes(&served_bytes(slice, block, probes, position), out),
        Err(r) => print_bytes(&[u8::from(r)], out),
    }
}
