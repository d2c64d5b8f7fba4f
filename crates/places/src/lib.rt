// Places and parts of a device: the geometry's arithmetic, storing, numbers of four bytes.
//
// Each place is given by the model's definition under an allowed geometry, where no arithmetic can wrap: the largest
// device has 4,312,117,248 bytes, and all of it is computed in 64 bits.
#![tactic(auto)]

ghost use Rattle.std.specs.Prelude.{◌≡◌, ◌+◌, ◌*◌, ◌≤◌, ◌<◌, length, replicate};
ghost use Rattle.refusals.specs.Numbers.{refusal_number, answer_number};
ghost use Rattle.model.specs.Parts.{overlay};
ghost use Rattle.model.specs.Geometry.{Allowed, bad_geometry, bad_count, any_bad_count, per_block, map_blocks, header_blocks, device_length, number_at, four_bytes};
ghost use Rattle.model.specs.Geometry.{header_start, map_start, slice_start, iv_start, block_start};
ghost use Rattle.model.specs.Session.{key_in};

use model::Geometry;
use refusals::Refusal;

// ---- geometry

// The refusal where B, S or P is not allowed. B is tested before it divides.
#[tactic(auto, using(std::proofs::lemmas::Bool::Decides::nat_tests), unfolding(model::specs::Geometry::bad_geometry, refusals::specs::Numbers::refuse))]
pub fn check_geometry(refusal: Refusal, g: Geometry) -> Result<(), Refusal>
    ensures { answer_number result ≡ bad_geometry (refusal_number refusal) g 0 }
{
    if g.b != 1024 && g.b != 4096 {
        return Err(refusal);
    }
    if g.s < 1 || g.b / 16 < g.s || g.p < 1 || 4096 < g.p {
        return Err(refusal);
    }
    Ok(())
}

// Whether a count of logical slices is not 1 to p (document 02, P4).
pub fn is_bad_count(p: usize, n: usize) -> bool
    ensures { result ≡ bad_count p n }
{
    n < 1 || p < n
}

// Whether one of the first n counts is not.
pub fn any_bad_count(counts: &[usize], p: usize, n: usize) -> bool
    requires { n ≤ length counts.now }
    ensures { result ≡ any_bad_count p counts.now n }
{
    counts[..n].iter().any(|&count| is_bad_count(p, count))
}

// The entries in a map block.
pub fn entries_per_block(g: Geometry) -> usize
    requires { Allowed g }
    ensures { result ≡ per_block g }
{
    (g.b - 16) / 4
}

// m, the map blocks of each volume.
#[tactic(auto, unfolding(model::specs::Geometry::map_blocks))]
pub fn map_blocks(g: Geometry) -> usize
    requires { Allowed g }
    ensures { result ≡ map_blocks g }
{
    g.p.div_ceil(entries_per_block(g))
}

// H, the header blocks.
#[tactic(auto, using(model::proofs::Bounds::map_blocks_small), unfolding(model::specs::Geometry::header_blocks))]
pub fn header_blocks(g: Geometry) -> usize
    requires { Allowed g }
    ensures { result ≡ header_blocks g }
{
    1 + 15 * (1 + map_blocks(g))
}

// The bytes of a device.
#[tactic(auto, using(model::proofs::Bounds::slices_small, model::proofs::Bounds::header_blocks_small, model::proofs::Bounds::bytes_small), unfolding(model::specs::Geometry::device_length))]
pub fn device_length(g: Geometry) -> usize
    requires { Allowed g }
    ensures { result ≡ device_length g }
{
    g.b * (header_blocks(g) + g.p * (g.s + 1))
}

// The key of a volume, among keys that stand end to end.
pub fn key_in<'a>(keys: &'a [u8], volume: usize) -> &'a [u8]
    requires { 32 * volume + 32 ≤ length keys.now }
    ensures { (result.now ≡ key_in keys.now volume) × (length result.now ≡ 32) }
{
    let from = 32 * volume;
    &keys[from..from + 32]
}

// Where the header of a volume begins.
#[tactic(auto, using(model::proofs::Bounds::headers_small, model::proofs::Bounds::map_blocks_small, model::proofs::Bounds::map_start_small))]
pub fn header_start(g: Geometry, volume: usize) -> usize
    requires { Allowed g × (volume ≤ 14) }
    ensures { result ≡ header_start g volume }
{
    g.b * (1 + volume * (1 + map_blocks(g)))
}

// Where the map blocks of a volume begin.
pub fn map_start(g: Geometry, volume: usize) -> usize
    requires { Allowed g × (volume ≤ 14) }
    ensures { result ≡ map_start g volume }
{
    header_start(g, volume) + g.b
}

// Where a slice begins.
#[tactic(auto, using(model::proofs::Bounds::slices_small, model::proofs::Bounds::header_blocks_small, model::proofs::Bounds::bytes_small), unfolding(model::specs::Geometry::slice_start))]
pub fn slice_start(g: Geometry, slice: usize) -> usize
    requires { Allowed g × (slice < g.p) }
    ensures { result ≡ slice_start g slice }
{
    g.b * (header_blocks(g) + slice * (g.s + 1))
}

// Where the IV of data block j of a slice begins.
pub fn iv_start(g: Geometry, slice: usize, j: usize) -> usize
    requires { Allowed g × (slice < g.p) × (j < g.s) }
    ensures { result ≡ iv_start g slice j }
{
    slice_start(g, slice) + 16 * j
}

// Where data block j of a slice begins.
#[tactic(auto, using(model::proofs::Bounds::device_length_small, model::proofs::Bounds::block_fits), unfolding(model::specs::Geometry::block_start))]
pub fn block_start(g: Geometry, slice: usize, j: usize) -> usize
    requires { Allowed g × (slice < g.p) × (j < g.s) }
    ensures { result ≡ block_start g slice j }
{
    slice_start(g, slice) + g.b * (1 + j)
}

// ---- parts

// Zeros over the whole buffer.
pub fn clear(buf: &mut [u8])
    ensures { buf.new ≡ replicate (length buf.old) 0 }
{
    buf.fill(0);
}

// The bytes of src into dst, which is as long. In a loop: std's `copy_from_slice`, where it comes to stand in line, makes the static library
// need `memmove`.
pub fn copy(dst: &mut [u8], src: &[u8])
    requires { length dst.old ≡ length src.now }
    ensures { dst.new ≡ src.now }
{
    for i in 0..src.len() {
        dst[i] = src[i];
    }
}

// Bytes over what stood from a place on.
pub fn store(device: &mut [u8], at: usize, d: &[u8])
    requires { at + length d.now ≤ length device.old }
    ensures { device.new ≡ overlay device.old at d.now }
{
    copy(&mut device[at..at + d.len()], d);
}

// ---- numbers

// The number in the four bytes from a place on.
pub fn number_at(s: &[u8], at: usize) -> usize
    requires { at + 4 ≤ length s.now }
    ensures { result ≡ number_at at s.now }
{
    u32::from_be_bytes([s[at], s[at + 1], s[at + 2], s[at + 3]]) as usize
}

// The four bytes of a number over what stood from a place on.
pub fn put_number(buf: &mut [u8], at: usize, n: usize)
    requires { at + 4 ≤ length buf.old }
    ensures { buf.new ≡ overlay buf.old at (four_bytes n) }
{
    let bytes = n.to_be_bytes();
    store(buf, at, &bytes[4..]);
}
