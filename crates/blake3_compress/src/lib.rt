// The compression function of BLAKE3: a block of sixteen words taken into a chaining value of eight.
#![tactic(auto)]

ghost use Rattle.std.specs.Prelude.{◌≡◌, ◌<◌, ◌++◌};
ghost use Rattle.blake3_compress.specs.Spec.{rotr, mix, g, schedule, scheduled, columns, diagonals, rounds, start, compress};

use std::num::wrapping_add_u32;

// The constant words of every compression, and the starting words of hash mode.
pub const IV: [u32; 8] = [
    0x6A09E667, 0xBB67AE85, 0x3C6EF372, 0xA54FF53A, 0x510E527F, 0x9B05688C, 0x1F83D9AB, 0x5BE0CD19,
];

// Which word of the block stands where in each of the seven rounds.
const SCHEDULE: [[u8; 16]; 7] = [
    [0, 1, 2, 3, 4, 5, 6, 7, 8, 9, 10, 11, 12, 13, 14, 15],
    [2, 6, 3, 10, 7, 0, 4, 13, 1, 11, 12, 5, 9, 14, 15, 8],
    [3, 4, 10, 12, 13, 2, 7, 14, 6, 5, 9, 0, 11, 15, 8, 1],
    [10, 7, 12, 9, 14, 3, 13, 15, 4, 0, 11, 2, 5, 8, 1, 6],
    [12, 13, 9, 11, 15, 10, 14, 8, 7, 2, 5, 3, 0, 1, 6, 4],
    [9, 14, 11, 5, 8, 12, 15, 1, 13, 3, 0, 10, 2, 6, 4, 7],
    [11, 15, 5, 0, 1, 9, 8, 6, 14, 10, 2, 12, 3, 4, 7, 13],
];

// x rotated right by n bits: one instruction.
fn rotr(x: u32, n: u32) -> u32
    requires { (0 < n) × (n < 32) }
    ensures { result ≡ rotr x n }
{
    (x >> n) | (x << (32 - n))
}

// Half of the quarter round, with the message word x and the rotations n and k. The sums wrap.
fn mix(v: &mut [u32; 16], a: usize, b: usize, c: usize, d: usize, x: u32, n: u32, k: u32)
    requires a_bound { (a < 16) × (b < 16) × (c < 16) × (d < 16) }
    requires n_nonzero { (0 < n) × (n < 32) × (0 < k) × (k < 32) }
    ensures { v.new ≡ mix a b c d x n k v.old }
{
    v[a] = wrapping_add_u32(wrapping_add_u32(v[a], v[b]), x);
    v[d] = rotr(v[d] ^ v[a], n);
    v[c] = wrapping_add_u32(v[c], v[d]);
    v[b] = rotr(v[b] ^ v[c], k);
}

// The quarter round G, with the message words x and y.
fn g(v: &mut [u32; 16], a: usize, b: usize, c: usize, d: usize, x: u32, y: u32)
    requires { (a < 16) × (b < 16) × (c < 16) × (d < 16) }
    ensures { v.new ≡ g a b c d x y v.old }
{
    mix(v, a, b, c, d, x, 16, 12);
    mix(v, a, b, c, d, y, 8, 7);
}

// The message word at place i of round r. t is the schedule: it is handed down, since a constant that is indexed is
// copied first.
#[tactic(auto, using(crate::proofs::Laws::entry))]
fn word(m: &[u32; 16], t: &[[u8; 16]; 7], r: usize, i: usize) -> u32
    requires { (t.now ≡ schedule) × (r < 7) × (i < 16) }
    ensures { result ≡ scheduled m.now r i }
{
    m[t[r][i] as usize]
}

// The first half of round r.
fn columns(v: &mut [u32; 16], m: &[u32; 16], t: &[[u8; 16]; 7], r: usize)
    requires { (t.now ≡ schedule) × (r < 7) }
    ensures { v.new ≡ columns (scheduled m.now r) v.old }
{
    g(v, 0, 4, 8, 12, word(m, t, r, 0), word(m, t, r, 1));
    g(v, 1, 5, 9, 13, word(m, t, r, 2), word(m, t, r, 3));
    g(v, 2, 6, 10, 14, word(m, t, r, 4), word(m, t, r, 5));
    g(v, 3, 7, 11, 15, word(m, t, r, 6), word(m, t, r, 7));
}

// The second half of round r.
fn diagonals(v: &mut [u32; 16], m: &[u32; 16], t: &[[u8; 16]; 7], r: usize)
    requires { (t.now ≡ schedule) × (r < 7) }
    ensures { v.new ≡ diagonals (scheduled m.now r) v.old }
{
    g(v, 0, 5, 10, 15, word(m, t, r, 8), word(m, t, r, 9));
    g(v, 1, 6, 11, 12, word(m, t, r, 10), word(m, t, r, 11));
    g(v, 2, 7, 8, 13, word(m, t, r, 12), word(m, t, r, 13));
    g(v, 3, 4, 9, 14, word(m, t, r, 14), word(m, t, r, 15));
}

// The seven rounds. Written out by halves, which are small enough for the compiler to put in place, the schedule's
// entries become constants; a loop that reads the table is a tenth slower.
#[tactic(auto, unfolding(crate::specs::Spec::schedule))]
fn rounds(v: &mut [u32; 16], m: &[u32; 16])
    ensures { v.new ≡ rounds m.now v.old }
{
    let t = SCHEDULE;
    columns(v, m, &t, 0);
    diagonals(v, m, &t, 0);
    columns(v, m, &t, 1);
    diagonals(v, m, &t, 1);
    columns(v, m, &t, 2);
    diagonals(v, m, &t, 2);
    columns(v, m, &t, 3);
    diagonals(v, m, &t, 3);
    columns(v, m, &t, 4);
    diagonals(v, m, &t, 4);
    columns(v, m, &t, 5);
    diagonals(v, m, &t, 5);
    columns(v, m, &t, 6);
    diagonals(v, m, &t, 6);
}

// Eight words, and eight after them.
pub fn joined(l: [u32; 8], r: [u32; 8]) -> [u32; 16]
    ensures { result ≡ l ++ r }
{
    let mut m = [0u32; 16];
    m[..8].copy_from_slice(&l);
    m[8..].copy_from_slice(&r);
    m
}

// The state that the rounds start from.
fn start(cv: [u32; 8], counter: u64, block_len: u32, flags: u32) -> [u32; 16]
    ensures { result ≡ start cv counter block_len flags }
{
    let mut v = joined(cv, IV);
    v[12] = (counter % 4294967296) as u32;
    v[13] = (counter / 4294967296) as u32;
    v[14] = block_len;
    v[15] = flags;
    v
}

// Takes the block of the words m into the chaining value, in place: each block waits for the one before it, and a copy would
// be waited for too.
pub fn compress(cv: &mut [u32; 8], m: &[u32; 16], counter: u64, block_len: u32, flags: u32)
    ensures { cv.new ≡ compress cv.old m.now counter block_len flags }
{
    let mut v = start(*cv, counter, block_len, flags);
    rounds(&mut v, m);
    let mut next = [0u32; 8];
    for i in 0..8 {
        next[i] = v[i] ^ v[i + 8];
    }
    *cv = next;
}
