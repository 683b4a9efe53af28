// What is read off an image: whether recovery has work to do, the backup that its search meets first, the inventory.
ghost use Rattle.std.specs.Prelude.{◌≡◌, true, ℕ};
ghost use Rattle.answers.specs.Answers as answers;
ghost use Rattle.answers.specs.Answers.{find_backup};
ghost use Rattle.answers.specs.Inventory as inventories;
ghost use Rattle.refusals.specs.Numbers.{told};
ghost use Rattle.handover.specs.Contract.{lent, room, PendingGives};
ghost use Rattle.handover.specs.Handing.{handed, Hands};
ghost use Rattle.cda_storage.specs.Handing.{yes_or_no};

use refusals::Refusal;

// Whether recovery has work to do.
pub fn pending(image: &[u8]) -> Result<bool, Refusal>
    ensures { (p : ℕ) → PendingGives (answers.pending (lent image)) (told result) p (handed (yes_or_no result) p) }
{
    let opened = handover::open_image(image, true)?;
    Ok(recovery::has_pending_work(image, &opened.store))
}

// The fields of the backup that the search meets first, and how many bytes they have.
pub fn find_backup(image: &[u8], out: &mut [u8]) -> Result<usize, Refusal>
    ensures { Hands (find_backup (lent image) (room out)) result out }
{
    let opened = handover::open_image(image, basics::HIT_ROOM <= out.len())?;
    let hit = recovery::search::find_backup(image, &opened.store.tree);
    Ok(encode::put_hit(image, hit, out))
}

// The inventory, and how many bytes it has.
pub fn inventory(image: &[u8], out: &mut [u8]) -> Result<usize, Refusal>
    ensures { Hands (inventories.inventory (lent image) (room out)) result out }
{
    let opened = handover::open_image(image, true)?;
    inventory::put_inventory(image, &opened.store.tree, out).ok_or(Refusal::OutputTooShort)
}
