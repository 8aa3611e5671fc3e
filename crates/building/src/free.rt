// Free pages.
ghost use Rattle.std.specs.Prelude.{◌<◌, slice_index};
ghost use Rattle.full_pages.specs.Meaning.{Sized};
ghost use Rattle.lookups.specs.Outcomes.{Checked};
ghost use Rattle.building.specs.Checks.{free_checks};

use answers::Reason;
use lookups::Memory;
use pages::Record;

// Whether a page is there, and free.
pub fn free_page(memory: &Memory<'_>, page: u64) -> Result<(), Reason>
    ensures { Checked (free_checks memory.now page) (λ _. page < slice_index memory.now 0) result }
{
    if page >= memory.pages() {
        return Err(Reason::NotThere);
    }
    let Record::Free = memory.record_of(page) else {
        return Err(Reason::InUse);
    };
    Ok(())
}
