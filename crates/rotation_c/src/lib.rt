// The update rotation for C: the function of crate rotation under the same contract. It stands beside the exports of crate cda_storage_c, in a library of
// its own. It answers a number and a length through `&mut`, since the C interface has no Result.
#![tactic(auto)]

ghost use Rattle.answers.specs.Rotate.{rotate};
ghost use Rattle.handover.specs.Contract.{lent, room, Returns};

// Copies current to backup and next to current, and deletes next, as one transaction. Refusals: 1, 2, 3, 17, 19, 20; 14 and 15 hand back the commit's image.
#[unsafe(no_mangle)]
pub extern "C" fn cda_storage_rotate(image: &[u8], out: &mut [u8], written: &mut usize) -> u32
    ensures { Returns (rotate (lent image) (room out)) result out written }
{
    rotation::cda_storage_rotate(image, out, written)
}
