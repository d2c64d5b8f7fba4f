// The transposition of 32 words: in each half of 32 bits, bit q of word p goes to bit p of word q.
//
// Five stages of 16 delta swaps each, by 16, 8, 4, 2 and 1 places. No branch, index or shift depends on the words.
#![tactic(auto)]

ghost use Rattle.std.specs.Prelude.{◌≡◌, ◌+◌, ◌<◌};
ghost use Rattle.swaps.specs.Transpose.{swaps};
ghost use Rattle.turn.specs.Turn.{first, Apart, stage, turned_of, TurnLaws};

// The first word of swap i of a stage by h places. The second is h after it.
fn first(h: usize, i: usize) -> usize
    requires apart { Apart h }
    requires few { i < 16 }
    ensures value { result ≡ first h i }
    ensures within { result + h < 32 }
{
    i / h * (2 * h) + i % h
}

// The stage by h places: the bits that m picks, h places up in a word, change place with those of the word h after it.
fn stage(x: [u64; 32], h: usize, m: u64) -> [u64; 32]
    requires { Apart h }
    ensures { result ≡ swaps (stage h m 16) x }
{
    let mut w = x;
    for i in 0usize..16 {
        let a = first(h, i);
        let b = a + h;
        let p = w[a];
        let q = w[b];
        let t = ((p >> h) ^ q) & m;
        w[b] = q ^ t;
        w[a] = p ^ (t << h);
    }
    w
}

// The words transposed.
pub fn turned(x: [u64; 32]) -> [u64; 32]
    ensures { result ≡ turned_of x }
{
    let a = stage(x, 16, 0x0000_ffff_0000_ffff);
    let b = stage(a, 8, 0x00ff_00ff_00ff_00ff);
    let c = stage(b, 4, 0x0f0f_0f0f_0f0f_0f0f);
    let d = stage(c, 2, 0x3333_3333_3333_3333);
    stage(d, 1, 0x5555_5555_5555_5555)
}

// What the transposition does to each bit: nothing runs, and the check has to prove it.
pub fn turn_laws()
    ensures { TurnLaws }
{}
