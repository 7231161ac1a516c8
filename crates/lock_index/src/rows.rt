ghost use Rattle.std.specs.Prelude.{◌≡◌, [], ◌∷◌, ◌++◌, OnOk, OnErr};
ghost use Rattle.lock_index.specs.IndexWords.{numbers_at, PutsAt, IsNumberedBelow, without_rows};

use crate::number_index::NumberIndex;
use std::alloc::AllocError;
use std::collections::BTreeMap;

/// A row becomes the last, and its number the last at its key. Out of memory, nothing changes.
pub fn push_row<K: Ord + Drop, T: Drop>(
    rows: &mut BTreeMap<u64, T>,
    index: &mut NumberIndex<K>,
    number: u64,
    key: K,
    row: T,
) -> Result<(), AllocError>
    requires { IsNumberedBelow number rows.old.entries }
    ensures rows { OnOk result (rows.new.entries ≡ rows.old.entries ++ (number, row) ∷ []) }
    ensures index { OnOk result (PutsAt K.cmp key (numbers_at K.cmp key index.old ++ number ∷ []) index.old index.new) }
    ensures same_rows { OnErr result (rows.new.entries ≡ rows.old.entries) }
    ensures same_index { OnErr result (index.new ≡ index.old) }
{
    rows.insert(number, row)?;
    let added = index.add(key, number);
    if added.is_err() {
        rows.remove(&number);
    }
    added
}

/// The rows with these numbers go.
pub fn remove_rows<T: Drop>(rows: &mut BTreeMap<u64, T>, numbers: &[u64])
    ensures { rows.new.entries ≡ without_rows numbers.now rows.old.entries }
{
    for number in numbers {
        rows.remove(number);
    }
}
