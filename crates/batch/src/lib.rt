// The cipher of AES-256 (FIPS 197, section 5.1) on up to 16 lanes, 16 blocks in each: every step of all lanes before the next step.
//
// No branch and no index depends on a word; how many lanes there are is no secret.
#![tactic(auto)]

ghost use Rattle.std.specs.Prelude.{◌≡◌, ◌≤◌};
ghost use Rattle.planes.specs.Rounds.{added_lane, mixed_lane, moved_lane};
ghost use Rattle.batch.specs.Batch.{encrypt_lanes};
ghost use Rattle.batch.specs.Theorems.{BatchLaws};

// CIPHER of the blocks of n lanes, from words of blocks to words of blocks, under the round keys in the lane k.
pub fn encrypt(s: &mut [u64; 512], n: usize, k: &[u64; 32])
    requires { n ≤ 16 }
    ensures { s.new ≡ encrypt_lanes k.now n s.old }
{
    lanes::transpose(s, n);
    let a = planes::round_key(k, 0);
    lanes::each_lane(
        s,
        n,
        |x: [u64; 32]| -> [u64; 32]
            ensures { result ≡ added_lane a x }
        { planes::added(x, &a) },
    );
    for round in 1..14 {
        lanes::sub_rows(s, 4, n);
        let b = planes::round_key(k, round);
        lanes::each_lane(
            s,
            n,
            |x: [u64; 32]| -> [u64; 32]
                ensures { result ≡ mixed_lane b x }
            { planes::mixed(x, &b) },
        );
    }
    lanes::sub_rows(s, 4, n);
    let c = planes::round_key(k, 14);
    lanes::each_lane(
        s,
        n,
        |x: [u64; 32]| -> [u64; 32]
            ensures { result ≡ moved_lane c x }
        { planes::moved(x, &c) },
    );
    lanes::transpose(s, n);
}

// The laws of specs/Theorems.antt: nothing runs, and the check has to prove them.
pub fn batch_laws()
    ensures { BatchLaws }
{}
