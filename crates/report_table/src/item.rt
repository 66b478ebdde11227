ghost use Rattle.std.specs.Prelude.{◌≡◌, ◌++◌, OnOk};
ghost use Rattle.std.specs.Option.{option_to_list};

use fact_kinds::Memory;

/// Adds an item, if there is one.
pub(crate) fn put<T: Drop>(items: &mut Vec<T>, item: Option<T>) -> Result<(), Memory>
    ensures put { OnOk result (items.new.items ≡ items.old.items ++ option_to_list item) }
{
    if let Some(item) = item {
        items.push(item)?;
    }
    Ok(())
}
