//! In which node a path can be derived.
ghost use Rattle.std.specs.Prelude.{IfOk};
ghost use Rattle.ob_site_reads.specs.Parents.{IsParent};

use ob_values::Text;
use std::alloc::{AllocError, Global};

/// A path up to its last slash, without that slash, and `None` where it has none. A node that derives a child of this
/// path has that path itself, or with a slash behind it. An error only for want of memory.
pub fn parent_path(alloc: Global, path: &Text) -> Result<Option<Text>, AllocError>
    ensures { IfOk result (IsParent path.now) }
{
    let Some((front, _name)) = path.as_str().rsplit_once('/') else {
        return Ok(None);
    };
    let front = String::from_str(alloc, front)?;
    let parent = Text::from_string(front)?;
    Ok(Some(parent))
}
