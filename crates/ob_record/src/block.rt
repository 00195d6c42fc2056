//! Blocks: the pieces of a record at whose ends a journal may be cut.
ghost use Rattle.std.specs.Prelude.{◌≡◌, ◌≤◌, ◌++◌, List, ℕ, length, take, IfSome, IfNone, option_map};
ghost use Rattle.ob_record.specs.Blocks.{IsBlock};
ghost use Rattle.ob_record.specs.Reading as reading;

use crate::parts::take_open_parts;
use crate::read::take_boot;

/// What follows the block that stands first.
#[tactic(auto, unfolding(crate::specs::Reading::block_at))]
fn behind_block(bytes: &[u8]) -> Option<&[u8]>
    ensures { option_map (λ x. x.now) result ≡ option_map (λ x. x.1) (reading.block_at bytes.now) }
{
    let rest = match take_boot(bytes) {
        Some((_, rest)) => rest,
        None => bytes,
    };
    let (_, rest) = take_open_parts(rest)?;
    Some(rest)
}

/// How long the block is that stands first in the bytes, if one does: an entry without its last line feed, or the second line
/// of a record and such an entry. Sizes and the moment are read, bodies aren't.
pub fn block_len(bytes: &[u8]) -> Option<usize>
    ensures some { IfSome result (λ n. (n ≤ length bytes.now) × IsBlock (take n bytes.now)) }
    ensures none { IfNone result ((block rest : List ℕ) → IsBlock block → bytes.now ≡ block ++ rest → ⊥) }
{
    let Some(rest) = behind_block(bytes) else {
        return None;
    };
    Some(bytes.len() - rest.len())
}
