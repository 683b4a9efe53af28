// The key list of a collection: its name is put behind the image, as the names of an operation are.
ghost use Rattle.std.specs.Prelude.{ℕ, length};
ghost use Rattle.basics.specs.Limits.{keys_room};
ghost use Rattle.answers.specs.Answers.{list_keys};
ghost use Rattle.handover.specs.Contract.{lent, room};
ghost use Rattle.recording.specs.Buffers.{Buffered};
ghost use Rattle.handover.specs.Handing.{Hands};

use decode::Decoded;
use refusals::Refusal;

fn list_in(
    src: &mut [u8],
    image: &[u8],
    opened: Decoded,
    collection: &[u8],
    out: &mut [u8],
) -> Result<usize, Refusal>
    requires { Buffered image.now keys_room (length out.old) opened src.old }
    ensures { Hands (list_keys (lent collection) (lent image) (room out)) result out }
{
    field::put_bytes(src, 0, image);
    let named = lend::lend_name(src, image.len(), collection);
    let Some(name) = named.name else {
        return Err(Refusal::InvalidName);
    };
    Ok(local_collection::list_keys(src, &opened.store, name, out))
}

// The keys, and how many bytes they have.
pub fn list(image: &[u8], collection: &[u8], out: &mut [u8]) -> Result<usize, Refusal>
    ensures { Hands (list_keys (lent collection) (lent image) (room out)) result out }
{
    let opened = handover::open_image(image, basics::KEYS_ROOM <= out.len())?;
    if image.len() <= recording::SMALL_IMAGE {
        let mut src = [0u8; recording::SMALL_ROOM];
        return list_in(&mut src, image, opened, collection, out);
    }
    let mut src = [0u8; recording::SOURCE_ROOM];
    list_in(&mut src, image, opened, collection, out)
}
