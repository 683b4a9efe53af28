// The listing program: 01, Listings and file steps, "reads an image from standard input, recovers it and writes" its listing. Where a read
// fails it writes a message to standard error and no listing; where a write fails, a message. Its exit status is 0 in each case.
#![tactic(auto)]

// One byte more than an image may have, so that a longer input is seen to be one: it is refused with 1.
const INPUT_ROOM: usize = basics::IMAGE_ROOM + 1;

// No listing is longer (crate listing, specs/Room.antt).
const LISTING_ROOM: usize = 19_113;

fn list(rt: &(impl Print + Eprint), image: &[u8]) {
    let mut out = [0u8; LISTING_ROOM];
    if let Some(n) = listing::listing(image, &mut out)
        && rt.write_all(&out[..n]).is_err()
    {
        let _ = eprintln!(rt; "list_store: the listing could not be written");
    }
}

fn main(rt: HostRuntime) {
    let mut buf = [0u8; INPUT_ROOM];
    match input::read_full(&mut rt.reader(), &mut buf) {
        Ok(n) => list(&rt, &buf[..n]),
        Err(_) => {
            let _ = eprintln!(&rt; "list_store: the image could not be read");
        }
    }
}
