// Numbers in slices of bytes. The compiler makes one load or one store of each.
#![tactic(auto)]

ghost use Rattle.std.specs.Prelude.{◌≡◌, ◌+◌, ◌≤◌, length, take, drop};
ghost use Rattle.std.proofs.Math.Seq.{paste};
ghost use Rattle.base.specs.Bytes.{le16, le32, le64, be64, unle, unbe};

// The number in the 2 bytes from index `at`, the lowest first.
pub fn read_le16(s: &[u8], at: usize) -> u16
    requires { at + 2 ≤ length s.now }
    ensures { result ≡ unle (take 2 (drop at s.now)) }
{
    u16::from_le_bytes(s[at..at + 2].try_into().unwrap())
}

// The number in the 4 bytes from index `at`, the lowest first.
pub fn read_le32(s: &[u8], at: usize) -> u32
    requires { at + 4 ≤ length s.now }
    ensures { result ≡ unle (take 4 (drop at s.now)) }
{
    u32::from_le_bytes(s[at..at + 4].try_into().unwrap())
}

// The number in the 8 bytes from index `at`, the lowest first.
pub fn read_le64(s: &[u8], at: usize) -> u64
    requires { at + 8 ≤ length s.now }
    ensures { result ≡ unle (take 8 (drop at s.now)) }
{
    u64::from_le_bytes(s[at..at + 8].try_into().unwrap())
}

// The number in the 8 bytes from index `at`, the highest first.
pub fn read_be64(s: &[u8], at: usize) -> u64
    requires { at + 8 ≤ length s.now }
    ensures { result ≡ unbe (take 8 (drop at s.now)) }
{
    u64::from_be_bytes(s[at..at + 8].try_into().unwrap())
}

// x goes into the 2 bytes from index `at`, the lowest first.
pub fn write_le16(out: &mut [u8], at: usize, x: u16)
    requires { at + 2 ≤ length out.old }
    ensures { out.new ≡ paste out.old at (le16 x) 2 }
{
    out[at..at + 2].copy_from_slice(&x.to_le_bytes());
}

// x goes into the 4 bytes from index `at`, the lowest first.
pub fn write_le32(out: &mut [u8], at: usize, x: u32)
    requires { at + 4 ≤ length out.old }
    ensures { out.new ≡ paste out.old at (le32 x) 4 }
{
    out[at..at + 4].copy_from_slice(&x.to_le_bytes());
}

// x goes into the 8 bytes from index `at`, the lowest first.
pub fn write_le64(out: &mut [u8], at: usize, x: u64)
    requires { at + 8 ≤ length out.old }
    ensures { out.new ≡ paste out.old at (le64 x) 8 }
{
    out[at..at + 8].copy_from_slice(&x.to_le_bytes());
}

// x goes into the 8 bytes from index `at`, the highest first.
pub fn write_be64(out: &mut [u8], at: usize, x: u64)
    requires { at + 8 ≤ length out.old }
    ensures { out.new ≡ paste out.old at (be64 x) 8 }
{
    out[at..at + 8].copy_from_slice(&x.to_be_bytes());
}
