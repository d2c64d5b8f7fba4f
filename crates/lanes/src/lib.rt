// Up to 16 lanes of 32 words in one array, word i of lane j at 16 * i + j: rows and lanes taken out and put back, and the two loops that
// the key schedule and the cipher share.
//
// Every index is made of a lane's and a row's number, none of a word.
#![tactic(auto)]

ghost use Rattle.std.specs.Prelude.{◌≡◌, ℕ, List, ◌++◌, ◌<◌, ◌≤◌};
ghost use Rattle.packing.specs.Planes.{row_from};
ghost use Rattle.turn.specs.Turn.{turned_of};
ghost use Rattle.lanes.specs.Lanes.{row_at, put_row, lane_at, put_lane, sub_rows, each_lane};
ghost use Rattle.lanes.specs.Theorems.{LaneLaws};

use std::array;

// The eight words of a row of a lane, from place at on.
fn get_row(s: &[u64; 512], at: usize) -> [u64; 8]
    requires { at < 400 }
    ensures { result ≡ row_at s.now at }
{
    array::from_fn(|i| s[at + 16 * i])
}

// Eight words put into a row of a lane. Tried as a loop over x: five times slower.
#[tactic(auto, unfolding(crate::specs::Lanes::put_row))]
fn put_row(s: &mut [u64; 512], at: usize, x: [u64; 8])
    requires { at < 400 }
    ensures { s.new ≡ put_row s.old at x }
{
    s[at] = x[0];
    s[at + 16] = x[1];
    s[at + 32] = x[2];
    s[at + 48] = x[3];
    s[at + 64] = x[4];
    s[at + 80] = x[5];
    s[at + 96] = x[6];
    s[at + 112] = x[7];
}

// The row of a lane from word at on.
pub fn row(x: &[u64; 32], at: usize) -> [u64; 8]
    requires { at < 25 }
    ensures { result ≡ row_from x.now at }
{
    array::from_fn(|i| x[at + i])
}

// The lane of four rows. Each word by name, since the library joins no arrays.
pub fn joined(a: [u64; 8], b: [u64; 8], c: [u64; 8], d: [u64; 8]) -> [u64; 32]
    ensures { result ≡ row_from a 0 ++ (row_from b 0 ++ (row_from c 0 ++ row_from d 0)) }
{
    [
        a[0], a[1], a[2], a[3], a[4], a[5], a[6], a[7], b[0], b[1], b[2], b[3], b[4], b[5], b[6],
        b[7], c[0], c[1], c[2], c[3], c[4], c[5], c[6], c[7], d[0], d[1], d[2], d[3], d[4], d[5],
        d[6], d[7],
    ]
}

// The 32 words of lane j.
#[tactic(auto, unfolding(crate::specs::Lanes::lane_at))]
pub fn get_lane(s: &[u64; 512], j: usize) -> [u64; 32]
    requires { j < 16 }
    ensures { result ≡ lane_at s.now j }
{
    joined(
        get_row(s, j),
        get_row(s, j + 128),
        get_row(s, j + 256),
        get_row(s, j + 384),
    )
}

// The words x put into lane j.
#[tactic(auto, unfolding(crate::specs::Lanes::put_lane))]
pub fn put_lane(s: &mut [u64; 512], j: usize, x: [u64; 32])
    requires { j < 16 }
    ensures { s.new ≡ put_lane s.old j x }
{
    put_row(s, j, row(&x, 0));
    put_row(s, j + 128, row(&x, 8));
    put_row(s, j + 256, row(&x, 16));
    put_row(s, j + 384, row(&x, 24));
}

// SUBBYTES of the first rows of n lanes, eight words at a time.
pub fn sub_rows(s: &mut [u64; 512], rows: usize, n: usize)
    requires { (rows ≤ 4) × (n ≤ 16) }
    ensures { s.new ≡ sub_rows rows n s.old }
{
    for r in 0..rows {
        for j in 0..n {
            let at = 128 * r + j;
            let y = circuit::sub8(get_row(s, at));
            put_row(s, at, y);
        }
    }
}

// The first n lanes changed by f, one after the other.
pub fn each_lane<F: Fn([u64; 32]) -> [u64; 32]>(s: &mut [u64; 512], n: usize, f: F)
    requires callable { F.IsAlwaysCallable f }
    requires few { n ≤ 16 }
    ensures { (g : List ℕ → List ℕ) → ((x y : List ℕ) → F.post f x y → y ≡ g x)
        → s.new ≡ each_lane g n s.old }
{
    for j in 0..n {
        let y = f(get_lane(s, j));
        put_lane(s, j, y);
    }
}

// The transposition of n lanes: from words of blocks to bit planes, and back.
pub fn transpose(s: &mut [u64; 512], n: usize)
    requires { n ≤ 16 }
    ensures { s.new ≡ each_lane turned_of n s.old }
{
    each_lane(s, n, turn::turned);
}

// The laws of specs/Theorems.antt: nothing runs, and the check has to prove them.
pub fn lane_laws()
    ensures { LaneLaws }
{}
