// What stands under an id.
ghost use Rattle.registers.specs.Entries.{ids, standing};
ghost use Rattle.registers.specs.Ids.{id_cmp};
ghost use Rattle.std.specs.Cmp.{IsTotalOrder};
ghost use Rattle.std.specs.List.Sorted.{IsStrictlySortedBy};
ghost use Rattle.std.specs.Prelude.{◌≡◌};

use crate::entry::{Entry, Id, Standing};
use std::cmp::Ord;

pub(crate) fn standing_of<N: Ord + Copy, T: Copy>(
    entries: &[Entry<N, T>],
    id: Id<N>,
) -> Option<Standing<T>>
    ensures { (o : IsTotalOrder N.Ord.cmp) → IsStrictlySortedBy (id_cmp N.Ord.cmp) (ids entries.now) → result ≡ standing (id_cmp N.Ord.cmp) entries.now id }
{
    let i = entries.binary_search_by_key(&id, |entry| entry.id).ok()?;
    Some(entries[i].standing)
}
