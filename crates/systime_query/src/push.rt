//! A list gains an item where there is one.
ghost use Rattle.std.specs.Prelude.{◌≡◌, ◌++◌, [], OnOk};
ghost use Rattle.std.specs.List.{cons_option};

use std::alloc::AllocError;

/// Appends an item, if there is one.
pub(crate) fn push_some<T: Drop>(list: &mut Vec<T>, item: Option<T>) -> Result<(), AllocError>
    ensures { OnOk result (list.new.items ≡ list.old.items ++ cons_option item []) }
{
    if let Some(item) = item {
        list.push(item)?;
    }
    Ok(())
}
