// GHASH (SP 800-38D, sections 6.3 and 6.4) over blocks kept as two halves of 64 bits.
//
// The product shifts its 128 bits right, the bit carried from the high half into the low one, and folds by E1 where the
// bit shifted out is 1. Bits select by masks and not by branches.
#![tactic(auto)]

ghost use Rattle.std.specs.Prelude.{◌≡◌, ◌-◌, ◌*◌, ◌^◌, ◌<◌, ◌≤◌, length, bit_xor};
ghost use Rattle.block.specs.Number.{block_number};
ghost use Rattle.ghash.specs.Product.{bit, next, pick_bit, product};
ghost use Rattle.ghash.specs.Hash.{hash_from, pad};
ghost use Rattle.ghash.specs.Theorems.{GhashLaws};

use block::Block;

// All ones where the bit is 1, else 0.
fn mask(b: u64) -> u64
    requires { b < 2 }
    ensures { result ≡ b * (2 ^ 64 - 1) }
{
    b.wrapping_neg()
}

// V shifted right by one, and folded by E1 where the bit shifted out is 1.
fn halve(v: Block) -> Block
    ensures { block_number result ≡ next (block_number v) }
{
    let m = mask(v.lo & 1);
    Block {
        hi: (v.hi >> 1) ^ (m & 0xE100_0000_0000_0000),
        lo: (v.lo >> 1) | (v.hi << 63),
    }
}

// Z, or Z + V where the bit is 1.
fn add_if(z: Block, v: Block, b: u64) -> Block
    requires { b < 2 }
    ensures { block_number result ≡ pick_bit b (block_number z) (bit_xor (block_number z) (block_number v)) }
{
    let m = mask(b);
    Block {
        hi: z.hi ^ (v.hi & m),
        lo: z.lo ^ (v.lo & m),
    }
}

// Bit i of a block, the most significant first.
fn bit_at(x: Block, i: u64) -> u64
    requires { i < 128 }
    ensures { result ≡ bit (block_number x) i }
{
    if i < 64 {
        (x.hi >> (63 - i)) & 1
    } else {
        (x.lo >> (127 - i)) & 1
    }
}

// X • Y (6.3, Algorithm 1).
pub fn multiply(x: Block, y: Block) -> Block
    ensures { block_number result ≡ product (block_number x) (block_number y) }
{
    let mut z = Block { hi: 0, lo: 0 };
    let mut v = y;
    for i in 0..128 {
        z = add_if(z, v, bit_at(x, i));
        v = halve(v);
    }
    z
}

// One block of GHASH: (y + x) • h.
pub fn absorb_block(h: Block, y: Block, x: Block) -> Block
    ensures { block_number result ≡ product (bit_xor (block_number y) (block_number x)) (block_number h) }
{
    multiply(
        Block {
            hi: y.hi ^ x.hi,
            lo: y.lo ^ x.lo,
        },
        h,
    )
}

// GHASH over s, padded to whole blocks, from y on.
pub fn absorb(h: Block, y: Block, s: &[u8]) -> Block
    requires { length s.now ≤ 4096 }
    ensures { block_number result ≡ hash_from (block_number h) (block_number y) (pad s.now) }
{
    let mut r = y;
    for x in s.chunks(16) {
        r = absorb_block(h, r, block::load_block(x, 0));
    }
    r
}

// The laws of GHASH: nothing runs, and the check has to prove them.
pub fn ghash_laws()
    ensures { GhashLaws }
{}
