// Where the eight payloads of a snapshot end, each led by its length.
ghost use Rattle.std.specs.Prelude.{◌≡◌, ◌≤◌, length};
ghost use Rattle.snapshot_lanes.specs.Ends.{sets_end};

use base::Refusal;
use byte_numbers::read_le64;
use roaring_check::is_bitmap64;

// The place behind the eight payloads from `at` on: 8 where they run past the bytes, 9 where one is no bitmap, as they are met.
pub fn sets_end(s: &[u8], at: usize) -> Result<usize, Refusal>
    requires { at ≤ length s.now }
    ensures { result ≡ sets_end 8 at s.now }
{
    let mut p = at;
    for _ in 0..8usize {
        if s.len() - p < 8 {
            return Err(Refusal::TornSnapshot);
        }
        let size = read_le64(s, p) as usize;
        if s.len() - p - 8 < size {
            return Err(Refusal::TornSnapshot);
        }
        let q = p + 8 + size;
        if !is_bitmap64(&s[p + 8..q]) {
            return Err(Refusal::BadBitmap);
        }
        p = q;
    }
    Ok(p)
}
