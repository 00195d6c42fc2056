//! Blocks of a record, as entries of a journal.
ghost use Rattle.ob_record.specs.Blocks.{IsBlock};
ghost use Rattle.ob_record.proofs.BlockLaws.{one_block, some_block};

use ob_journal::Shape;
use ob_record::block_len;

/// The blocks of records: an entry without its last line feed, the first behind the line of the opening.
pub struct Blocks;

impl Shape for Blocks {
    ghost is_entry = { IsBlock };

    ghost one_first = { one_block };

    ghost some_byte = { some_block };

    fn first(bytes: &[u8]) -> Option<usize> {
        block_len(bytes)
    }
}
