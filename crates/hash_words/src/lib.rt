// A hash of 32 bytes as a key of four words, and back: the tables hold words, records and outputs hold bytes.
#![tactic(auto)]

ghost use Rattle.std.specs.Prelude.{◌≡◌, ◌+◌, ◌≤◌, length, take, drop};
ghost use Rattle.std.proofs.Math.Seq.{paste};
ghost use Rattle.base.specs.Bytes.{unbe};
ghost use Rattle.rows.specs.Wide.{key_of};
ghost use Rattle.cell_nursery.specs.Entries.{hash_bytes};

use rows::Wide;

// The hash in the 32 bytes from index `at`.
pub fn wide_of(s: &[u8], at: usize) -> Wide
    requires { at + 32 ≤ length s.now }
    ensures { key_of result ≡ unbe (take 32 (drop at s.now)) }
{
    let first = byte_numbers::read_be64(s, at);
    let second = byte_numbers::read_be64(s, at + 8);
    let third = byte_numbers::read_be64(s, at + 16);
    let fourth = byte_numbers::read_be64(s, at + 24);
    Wide(first, second, third, fourth)
}

// The hash goes into the 32 bytes from index `at`.
pub fn write_wide(out: &mut [u8], at: usize, w: Wide)
    requires { at + 32 ≤ length out.old }
    ensures { out.new ≡ paste out.old at (hash_bytes (key_of w)) 32 }
{
    byte_numbers::write_be64(out, at, w.0);
    byte_numbers::write_be64(out, at + 8, w.1);
    byte_numbers::write_be64(out, at + 16, w.2);
    byte_numbers::write_be64(out, at + 24, w.3);
}
