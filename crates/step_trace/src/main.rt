// Runs a box's step trace: 02, item 10, "reads a store image and, straight after it, step fields 0x20 to 0x2E, and writes one line". Only the image is
// kept; what stands behind it is met piece by piece. Where a read fails it writes a message to standard error and no line; where a write fails, a message.
#![tactic(auto)]

ghost use Rattle.std.specs.Prelude.{◌≤◌, ◌<◌, IfOk, length};
ghost use Rattle.trace.specs.Tracking.{steps_of};

use std::io;
use trace::Trace;

// One byte more than an image may have: an image that goes on then is too long (crate trace, specs/Split.antt).
const INPUT_ROOM: usize = basics::IMAGE_ROOM + 1;

const LINE_ROOM: usize = 32;

// The most bytes that are read at once behind the image.
const PIECE_ROOM: usize = 65_536;

// No plan has so many steps; a trace that had them would be told to be one.
const MOST_STEPS: u32 = 4_000_000_000;

// The rest of the input, piece by piece.
fn read_on<R: io::Read>(reader: &mut R, image: &[u8], begun: Trace) -> io::Result<Trace>
    requires { steps_of begun < 0xFFFF_FFFF }
    ensures { IfOk result (λ t. steps_of t < 0xFFFF_FFFF) }
{
    let mut trace = begun;
    let mut buf = [0u8; PIECE_ROOM];
    for _ in 0..0xFFFF_FFFFu32 {
        let n = reader.read(&mut buf)?;
        if n == 0 {
            return Ok(trace);
        }
        if MOST_STEPS < trace.steps() {
            break;
        }
        trace = trace.feed(image, &buf[..n]);
    }
    Err(io::Error::from(io::ErrorKind::FileTooLarge))
}

fn put(rt: &(impl Print + Eprint), trace: &Trace)
    requires { steps_of trace.now < 0xFFFF_FFFF }
{
    let mut out = [0u8; LINE_ROOM];
    if let Some(n) = trace.put_line(&mut out)
        && rt.write_all(&out[..n]).is_err()
    {
        let _ = eprintln!(rt; "step_trace: the line could not be written");
    }
}

// The line of an input that begins so; `full` where more may follow.
fn run<R: io::Read>(rt: &(impl Print + Eprint), reader: &mut R, first: &[u8], full: bool)
    requires { length first.now ≤ 19_391 }
{
    let (image, behind) = first.split_at(trace::image_length(first));
    let begun = Trace::start(image).feed(image, behind);
    let whole = if full {
        read_on(reader, image, begun)
    } else {
        Ok(begun)
    };
    match whole {
        Ok(trace) => put(rt, &trace),
        Err(_) => fail(rt),
    }
}

fn fail(rt: &impl Eprint) {
    let _ = eprintln!(rt; "step_trace: the input could not be read");
}

fn main(rt: HostRuntime) {
    let mut reader = rt.reader();
    let mut buf = [0u8; INPUT_ROOM];
    match input::read_full(&mut reader, &mut buf) {
        Ok(n) => run(&rt, &mut reader, &buf[..n], n == INPUT_ROOM),
        Err(_) => fail(&rt),
    }
}
