//! The paths of include items.
ghost use Rattle.std.specs.Prelude.{◌≡◌, ◌++◌, filter_map, OnOk};
ghost use Rattle.relay_aliasfile.specs.IncludeNames.{included_path};

use crate::item::Item;
use relay_text::Text;
use std::alloc::{AllocError, Global};

/// Puts the paths of include items at the end.
pub(crate) fn add_paths(
    alloc: Global,
    items: &[Item],
    paths: &mut Vec<Text>,
) -> Result<(), AllocError>
    ensures { OnOk result (paths.new.items ≡ paths.old.items ++ filter_map included_path items.now) }
{
    for item in items {
        if let Some(path) = item.included_path() {
            paths.push(Text::copy_of(alloc, path)?)?;
        }
    }
    Ok(())
}
