// What every exported entry does before and behind its own work: the image is read, the answer is written into the lent outputs.
#![tactic(auto)]

ghost use Rattle.std.specs.Prelude.{◌≤◌, length};
ghost use Rattle.model.specs.Image.{encode};
ghost use Rattle.answers.specs.Answers.{outcome};
ghost use Rattle.store.specs.Stores.{store_of};
ghost use Rattle.wal.specs.Tails.{with_tail};
ghost use Rattle.steps.specs.Steps.{SoundStep};
ghost use Rattle.local_storage.specs.Recording.{outcome_of};
ghost use Rattle.handover.specs.Contract.{lent, before, after, Writes};
ghost use Rattle.handover.specs.Handing.{Hands, StepHands};
ghost use Rattle.handover.specs.Opening.{Opens, ImageStands, AnswerStands, field_of, StepStands, stepped};

use decode::Decoded;
use local_storage::Recorded;
use refusals::Refusal;
use steps::{Run, Step};
use store::Store;
use wal::Tail;

// A store image, where it is accepted and the outputs have room. 01, Sixteen numbers: "1. The image breaks its layout or a limit. 2. The lent
// output has under" 19,390 bytes (02, item 4). The room is tested behind the image, and each entry asks for its own: so whether it is there is handed in.
pub fn open_image(image: &[u8], room: bool) -> Result<Decoded, Refusal>
    ensures { Opens (lent image) room result }
{
    let Some(decoded) = decode::decode(image) else {
        return Err(Refusal::InvalidImage);
    };
    if room {
        return Ok(decoded);
    }
    Err(Refusal::OutputTooShort)
}

// A store's image, with the log that a tail leaves, written at the front of the output, and how many bytes it has. The tree is copied where it
// stands in the first `kept` bytes.
pub fn hand_image(src: &[u8], store: &Store, tail: Tail, kept: usize, out: &mut [u8]) -> usize
    requires { ImageStands src.now store.now tail kept (length out.old) }
    ensures { Writes (encode (with_tail (lent src) tail (store_of (lent src) (lent store)))) (before out) (after out) result }
{
    encode::encode(src, store, tail, kept, out)
}

// What a method that records answered.
pub fn hand_on(src: &[u8], r: Recorded, kept: usize, out: &mut [u8]) -> Result<usize, Refusal>
    requires { AnswerStands src.now r kept (length out.old) }
    ensures { Hands (outcome (outcome_of (lent src) r)) result out }
{
    let tail = r.done?;
    Ok(hand_image(src, &r.storage.store, tail, kept, out))
}

// The field of the n-th step, none for n = 0, written at the front of the output, and how many bytes it has.
fn hand_field(src: &[u8], last: Step, n: u64, step: &mut [u8]) -> usize
    requires { SoundStep src.now last × (length (field_of src.now last n) ≤ length step.old) }
    ensures { Writes (field_of (lent src) last n) (before step) (after step) result }
{
    if n == 0 {
        return 0;
    }
    steps::write_step(src, last, step)
}

// The image after n steps and the last step's field; 16 where some of the n steps are left.
pub fn hand_step(
    src: &[u8],
    run: &Run,
    n: u64,
    out: &mut [u8],
    step: &mut [u8],
) -> Result<(usize, usize), Refusal>
    requires { StepStands src.now run.now n (length out.old) (length step.old) }
    ensures { StepHands (stepped (lent src) (lent run) n) result out step }
{
    if run.budget.unwrap_or(0) != 0 {
        return Err(Refusal::PastTheEnd);
    }
    let written = hand_image(src, &run.store, Tail::Nothing, 0, out);
    let step_written = hand_field(src, run.last, n, step);
    Ok((written, step_written))
}
