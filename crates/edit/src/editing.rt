// The two edits of a list.
ghost use Rattle.edit.specs.Editing.{Puts, Drops};

use crate::writing::{write_drop, write_put};
use entry::{Entry, plan_drop, plan_put};
use words::Refusal;

// The list with an entry put, in place of the one of the same kind, realm and id; written to out. The new list's length.
pub fn put_entry(list: &[u8], entry: Entry, out: &mut [u8]) -> Result<usize, Refusal>
    ensures { Puts list.now entry out.old result out.new }
{
    let plan = plan_put(list, entry)?;
    write_put(list, plan, entry, out)
}

// The list without the entry of this kind, realm and id; written to out. The new list's length.
pub fn drop_entry(list: &[u8], entry: Entry, out: &mut [u8]) -> Result<usize, Refusal>
    ensures { Drops list.now entry out.old result out.new }
{
    let plan = plan_drop(list, entry)?;
    write_drop(list, plan, out)
}
