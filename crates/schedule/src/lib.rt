// The round keys of AES-256 on bit planes, without look-ups: round key n is block n of a lane.
//
// No index and no branch depends on a byte of the key.
#![tactic(auto)]

ghost use Rattle.std.specs.Prelude.{◌≡◌, ℕ, ◌+◌, ◌*◌, ◌^◌, ◌<◌, length};
ghost use Rattle.aes.specs.KeyExpansion.{key_expansion};
ghost use Rattle.lanes.specs.Lanes.{lane_at};
ghost use Rattle.planes.specs.Rounds.{KeyPlanes};
ghost use Rattle.schedule.specs.Keys.{KeyBlock};

use std::array;

// Two words of 32 bits in one of 64, the first in the low half.
fn pair(a: u32, b: u32) -> u64
    ensures { result ≡ a + b * 2 ^ 32 }
{
    u64::from(a) + (u64::from(b) << 32)
}

// The round keys into the first lane, as its blocks 0 to 14.
fn put_keys(s: &mut [u64; 512], w: &[u32; 60])
    ensures { (n : ℕ) → n < 15 → KeyBlock w.now s.new n }
{
    for n in 0usize..15 {
        let i = 4 * n;
        let j = 16 * n;
        s[j] = pair(w[i], w[i + 2]);
        s[j + 256] = pair(w[i + 1], w[i + 3]);
    }
}

// The first lane. Not by `lanes::get_lane`, which the compiler would then keep out of line where it counts.
fn first_lane(s: &[u64; 512]) -> [u64; 32]
    ensures { result ≡ lane_at s.now 0 }
{
    array::from_fn(|i| s[16 * i])
}

// The round keys of a key on bit planes: block n of the lane is round key n. The words s are working memory.
pub fn key_planes(s: &mut [u64; 512], key: &[u8]) -> [u64; 32]
    requires { length key.now ≡ 32 }
    ensures { KeyPlanes (key_expansion key.now) result }
{
    let w = expansion::expand(s, key);
    put_keys(s, &w);
    lanes::transpose(s, 1);
    first_lane(s)
}
