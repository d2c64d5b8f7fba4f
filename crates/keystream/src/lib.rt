// Output blocks of counter mode (SP 800-38A, section 6.5) on bit planes, up to 256 at a time.
//
// Block 16 * j + i of the text is block i of lane j. Its counter block stands in words 16 * i + j and 256 + 16 * i + j, and so does its
// output block after the cipher.
#![tactic(auto)]

ghost use Rattle.std.specs.Prelude.{◌≡◌, ◌+◌, ◌*◌, ◌%◌, ◌^◌, ◌<◌, ◌≤◌};
ghost use Rattle.block.specs.Number.{block_number};
ghost use Rattle.keystream.specs.Blocks.{OutputBlocks};
ghost use Rattle.keystream.specs.Words.{CounterPut, Counters, put_bytes, BlocksOut};

use block::Block;

// The bytes of a buffer for output blocks: 4,096, and eight more, by which the compiler lays the lanes beside it on the stack at a
// multiple of 16 bytes. Vector instructions are faster there.
pub const BUFFER_BYTES: usize = 4104;

// The counter block that is n after iv.
fn counter(iv: Block, n: usize) -> Block
    ensures { block_number result ≡ (block_number iv + n) % 2 ^ 128 }
{
    block::add(iv, n as u64)
}

// The counter block b into words at and at + 256.
fn put_counter(s: &mut [u64; 512], at: usize, b: Block)
    requires { at < 256 }
    ensures { CounterPut s.old at (block_number b) s.new }
{
    s[at] = packing::first_word(b);
    s[at + 256] = packing::second_word(b);
}

// The counter blocks of n lanes, from the block that is `from` after iv on.
fn counters(s: &mut [u64; 512], n: usize, iv: Block, from: usize)
    requires { (n ≤ 16) × (from < 2 ^ 63) }
    ensures { Counters (block_number iv + from) n 256 s.new }
{
    for i in 0usize..16 {
        for j in 0..n {
            put_counter(s, 16 * i + j, counter(iv, from + 16 * j + i));
        }
    }
}

// The 16 bytes b into buf from place at on.
fn put_block(buf: &mut [u8; BUFFER_BYTES], at: usize, b: [u8; 16])
    requires { at ≤ 4080 }
    ensures { buf.new ≡ put_bytes buf.old at b 16 }
{
    buf[at..at + 16].copy_from_slice(&b);
}

// The bytes of the blocks of n lanes.
fn bytes(s: &[u64; 512], n: usize, buf: &mut [u8; BUFFER_BYTES])
    requires { n ≤ 16 }
    ensures { BlocksOut s.now (256 * n) buf.new }
{
    for j in 0..n {
        for i in 0usize..16 {
            let at = 16 * i + j;
            put_block(
                buf,
                256 * j + 16 * i,
                packing::block_bytes(s[at], s[at + 256]),
            );
        }
    }
}

// The 16 * n output blocks of the counter blocks from the block that is `from` after iv on, under the round keys in the lane keys.
pub fn output_blocks(
    s: &mut [u64; 512],
    n: usize,
    keys: &[u64; 32],
    iv: Block,
    from: usize,
    buf: &mut [u8; BUFFER_BYTES],
)
    requires { (n ≤ 16) × (from < 2 ^ 63) }
    ensures { OutputBlocks keys.now (block_number iv + from) n buf.new }
{
    counters(s, n, iv, from);
    batch::encrypt(s, n, keys);
    bytes(s, n, buf);
}
