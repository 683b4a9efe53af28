// The trace that a box kept of a commit, held to the commit's plan: 02, item 10. An image and the bytes behind it are met piece by piece, so a trace
// may be of any length. Each step's field comes of a run of the plan up to it.
#![tactic(auto)]

ghost use Rattle.std.specs.Prelude.{◌≡◌, true, [], ◌∷◌, ◌+◌, ◌≤◌, ◌<◌, IfSome, length, eqb};
ghost use Rattle.basics.specs.Base.{Bytes};
ghost use Rattle.refusals.specs.Numbers.{number_of};
ghost use Rattle.text.specs.Writing.{Writes};
ghost use Rattle.trace.specs.Line.{image_length, said, line_from};
ghost use Rattle.trace.specs.Tracking.{steps_of, Tracks, Fresh, Goes};

use fixed_vec::FixedVec;
use refusals::Refusal;
use running::Planned;

// The field of a step.
type StepField = FixedVec<u8, { basics::STEP_ROOM }>;

// How far a trace is the plan's.
#[derive(Clone, Copy)]
pub enum Trace {
    // The commit is refused, with 1 or 4.
    Refused(Refusal),
    // So many steps were met, and behind them so many bytes of the next step's field, which is empty past the plan's end.
    Along {
        steps: u32,
        field: StepField,
        met: usize,
    },
    // So many steps were met, and behind them so many bytes of the next step's field, as above, and then another byte than the plan's.
    Differs {
        steps: u32,
        field: StepField,
        met: usize,
    },
}

// How many bytes of the input the image has. The place goes from field to field, so no `for` counts it.
pub fn image_length(s: &[u8]) -> usize
    ensures { (result ≤ length s.now) × (result ≡ image_length 0 s.now) }
{
    let mut at: usize = 0;
    while at < s.len() {
        if 0x14 < s[at] {
            return at;
        }
        let Ok(x) = field::read_field(s, at) else {
            return s.len();
        };
        at = x.end;
    }
    at
}

// Whether a step entry's refusal says that the step number is past the plan's end.
fn is_past_end(refusal: Refusal) -> bool
    ensures { result ≡ eqb (number_of refusal) 16 }
{
    matches!(refusal, Refusal::PastTheEnd)
}

// The trace after n steps that were met, none of the bytes behind them.
fn behind(image: &[u8], n: u32) -> Trace
    ensures { Fresh image.now n result }
{
    let mut out = [0u8; basics::IMAGE_ROOM];
    let mut step = [0u8; basics::STEP_ROOM];
    let done = running::run_steps(Planned::Commit, image, n as u64 + 1, &mut out, &mut step);
    let len = match done {
        Ok((_, len)) => len,
        Err(refusal) => {
            if !is_past_end(refusal) {
                return Trace::Refused(refusal);
            }
            0
        }
    };
    let mut field = FixedVec::from(step);
    field.truncate(len);
    Trace::Along {
        steps: n,
        field,
        met: 0,
    }
}

// A word, a number and a line feed, written whole, or not at all where they have no room. The answer is how many bytes were written.
fn put_said(word: &[u8], n: u32, out: &mut [u8]) -> Option<usize>
    requires { length word.now ≤ 10 }
    ensures { Writes (said word.now n) out.old out.new result }
{
    let w = word.len();
    let k = text::digits(n);
    let size = w + 2 + k;
    if out.len() < size {
        return None;
    }
    field::put_bytes(out, 0, word);
    field::put_u8(out, w, b' ');
    text::put_decimal(n, out, w + 1);
    field::put_u8(out, w + 1 + k, b'\n');
    Some(size)
}

impl Trace {
    // An image, before the first byte behind it.
    pub fn start(image: &[u8]) -> Self
        ensures { (steps_of result ≡ 0) × Tracks image.now [] result }
    {
        behind(image, 0)
    }

    // How many steps were met.
    pub fn steps(&self) -> u32
        ensures { result ≡ steps_of self.now }
    {
        match self {
            Trace::Refused(_) => 0,
            Trace::Along { steps, .. } => *steps,
            Trace::Differs { steps, .. } => *steps,
        }
    }

    // One byte more.
    fn meet(self, image: &[u8], x: u8) -> Self
        requires { steps_of self < 0xFFFF_FFFE }
        ensures { Goes image.now (x ∷ []) self result }
    {
        match self {
            Trace::Along { steps, field, met } => {
                let Some(&due) = field.get(met) else {
                    return Trace::Differs { steps, field, met };
                };
                if due != x {
                    return Trace::Differs { steps, field, met };
                }
                if met + 1 < field.len() {
                    return Trace::Along {
                        steps,
                        field,
                        met: met + 1,
                    };
                }
                behind(image, steps + 1)
            }
            settled => settled,
        }
    }

    // The bytes of a part, one behind the other.
    pub fn feed(self, image: &[u8], part: &[u8]) -> Self
        requires { steps_of self + length part.now < 0xFFFF_FFFE }
        ensures { Goes image.now part.now self result }
    {
        let mut trace = self;
        for x in part {
            trace = trace.meet(image, *x);
        }
        trace
    }

    // The line, where no byte follows.
    pub fn put_line(&self, out: &mut [u8]) -> Option<usize>
        requires { steps_of self.now < 0xFFFF_FFFF }
        ensures { IfSome result (λ n. n ≤ length out.new) × ((image b : Bytes) → Tracks image b self.now → Writes (line_from image 0 b) out.old out.new result) }
    {
        match self {
            Trace::Refused(refusal) => put_said(b"answer", u32::from(*refusal), out),
            Trace::Along { steps, met, .. } => {
                if *met == 0 {
                    return put_said(b"steps", *steps, out);
                }
                put_said(b"differs at", *steps + 1, out)
            }
            Trace::Differs { steps, .. } => put_said(b"differs at", *steps + 1, out),
        }
    }
}
