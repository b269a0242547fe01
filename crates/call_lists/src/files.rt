// Files of the folder that the program runs in.
ghost use Rattle.std.specs.Prelude.{◌≤◌, length};

use std::fs;
use std::io::Read;
use std::rt::Files;
use std::str::from_utf8;

// Reads until the buffer is full, the file ends or a read fails; how many bytes came.
pub fn read_full(file: &mut impl Read, buf: &mut [u8]) -> usize
    ensures { result ≤ length buf.new }
{
    let mut len = 0;
    while len < buf.len() {
        match file.read(&mut buf[len..]) {
            Ok(0) => return len,
            Ok(n) => len += n,
            Err(_) => return len,
        }
    }
    len
}

// How many bytes of a file were read; 0 where there is none.
pub fn read_file(rt: &impl Files, name: &[u8], buf: &mut [u8]) -> usize
    ensures { result ≤ length buf.new }
{
    let Ok(path) = from_utf8(name) else {
        return 0;
    };
    let Ok(mut file) = fs::open(rt, path) else {
        return 0;
    };
    read_full(&mut file, buf)
}
