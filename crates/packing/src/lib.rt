// Blocks in and out of bit planes: the two words that hold a block before and after the transposition, and its bytes.
#![tactic(auto)]

ghost use Rattle.std.specs.Prelude.{◌≡◌};
ghost use Rattle.packing.specs.Planes.{first_word, second_word, block_bytes};
ghost use Rattle.packing.specs.Theorems.{PackingLaws};

// The first word of a block: columns 0 and 2.
#[tactic(auto, unfolding(crate::specs::Planes::first_word))]
pub fn first_word(b: block::Block) -> u64
    ensures { result ≡ first_word b.hi b.lo }
{
    (b.hi >> 32) + ((b.lo >> 32) << 32)
}

// The second word of a block: columns 1 and 3.
#[tactic(auto, unfolding(crate::specs::Planes::second_word))]
pub fn second_word(b: block::Block) -> u64
    ensures { result ≡ second_word b.hi b.lo }
{
    b.hi % 0x1_0000_0000 + (b.lo << 32)
}

// The 16 bytes of the block that two words hold.
#[tactic(auto, unfolding(crate::specs::Planes::block_bytes))]
pub fn block_bytes(p: u64, q: u64) -> [u8; 16]
    ensures { result ≡ block_bytes p q }
{
    let x = p.to_be_bytes();
    let y = q.to_be_bytes();
    [
        x[4], x[5], x[6], x[7], y[4], y[5], y[6], y[7], x[0], x[1], x[2], x[3], y[0], y[1], y[2],
        y[3],
    ]
}

// What planes, words and bytes of a block have to do with each other: nothing runs, and the check has to prove it.
pub fn packing_laws()
    ensures { PackingLaws }
{}
