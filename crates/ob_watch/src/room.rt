//! What the watches of a site leave of what all may have.
ghost use Rattle.std.specs.Prelude.{◌≡◌, ◌-◌};

use std::marker::Model;

/// How many more items, and bytes of their hrefs, the other watches leave for one.
#[derive(Clone, Copy)]
pub struct Room {
    items: u32,
    bytes: u32,
}

impl Model for Room {
    ghost use Rattle.ob_watching.specs.Watches.{Room};

    ghost Value = { Room };

    ghost view = { λ r. record { items = r.items; bytes = r.bytes } };

    ghost inverse = { λ r. record { items = r.items; bytes = r.bytes } };
}

impl Room {
    ghost use Rattle.std.specs.Prelude.{◌+◌, ◌^◌, ◌<◌, ◌||◌, nat_le, nat_lt};
    ghost use Rattle.ob_watching.specs.Watches.{max_items, max_items_in_all, max_bytes, max_bytes_in_all};

    /// What there is where no watch has an item: 200,000 items, of 16,777,216 bytes.
    pub(crate) fn new() -> Room
        ensures { result ≡ record { items = max_items_in_all; bytes = max_bytes_in_all } }
    {
        Room {
            items: 200_000,
            bytes: 16_777_216,
        }
    }

    /// What is left beside so many items, of so many bytes; of more bytes than 64 bits count none are.
    pub(crate) fn beside(self, items: usize, bytes: u64) -> Room
        ensures left { result ≡ record { items = self.items - items; bytes = self.bytes - bytes } }
        ensures small { self.bytes < 2 ^ 32 }
    {
        Room {
            items: left(self.items, items as u64),
            bytes: left(self.bytes, bytes),
        }
    }

    /// Whether an item more than so many has no room.
    pub(crate) fn lacks_item(self, items: usize) -> bool
        ensures { result ≡ nat_le self.items items }
    {
        self.items as usize <= items
    }

    /// Whether so many bytes and so many more have no room.
    pub(crate) fn lacks_bytes(self, bytes: u64, more: usize) -> bool
        ensures lacks { result ≡ nat_lt self.bytes (bytes + more) }
        ensures small { self.bytes < 2 ^ 32 }
    {
        (self.bytes as u64) < bytes.saturating_add(more as u64)
    }

    /// Whether a watch with its most items, of the most bytes, has no room.
    pub(crate) fn lacks_watch(self) -> bool
        ensures { result ≡ (nat_lt self.items max_items || nat_lt self.bytes max_bytes) }
    {
        self.items < 2048 || self.bytes < 2_097_152
    }
}

// What a number leaves of another.
fn left(of: u32, number: u64) -> u32
    ensures { result ≡ of - number }
{
    (of as u64).saturating_sub(number) as u32
}
