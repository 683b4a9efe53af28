// A list that is read from a file.
ghost use Rattle.std.specs.Prelude.{◌≤◌, length};

use super::layout::Part;
use std::rt::Files;
use std::{fs, io};

// Opens a list; without it the message says so.
pub fn open_list<R: Files + Eprint>(rt: &R, path: &str) -> Option<R::File> {
    match fs::open(rt, path) {
        Ok(list) => Some(list),
        Err(e) => {
            let _ = eprintln!(rt; "{path}: {e}");
            None
        }
    }
}

// Reads until the buffer is full, the list ends or a read fails; how many bytes stand at the front of the buffer then. A list that fails is one that ends,
// so this is not `input::read_full`: what was read before a failure, which an `Err` would not tell, decides whether the list breaks off there.
fn read_full<R: io::Read>(list: &mut R, buf: &mut [u8]) -> usize
    ensures { result ≤ length buf.new }
{
    let mut n: usize = 0;
    while n < buf.len() {
        let more = list.read(&mut buf[n..]).unwrap_or(0);
        if more == 0 {
            return n;
        }
        n += more;
    }
    n
}

// The next field of an open list, read into the buffer. Where one breaks off, the message says so.
pub fn read_next<'a, R: io::Read>(
    rt: &impl Eprint,
    list: &mut R,
    buf: &'a mut [u8; 65536],
) -> Option<Part<'a>> {
    let mut head = [0u8; 3];
    let got = read_full(list, &mut head);
    if got == 0 {
        return None;
    }
    let [tag, low, high] = head;
    let n = u16::from_le_bytes([low, high]) as usize;
    if got < 3 || read_full(list, &mut buf[..n]) < n {
        let _ = eprintln!(rt; "the list breaks off");
        return None;
    }
    Some(Part {
        tag,
        value: &buf[..n],
    })
}
