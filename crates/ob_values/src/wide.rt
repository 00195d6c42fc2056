//! Numbers of 128 bits at a word's alignment.
ghost use Rattle.std.specs.Prelude.{◌≡◌};
ghost use Rattle.std.specs.Ordering.{int_eq, int_cmp, as_partial_cmp};
ghost use Rattle.std.specs.Cmp.Rules.{comparing};
ghost use Rattle.std.proofs.Common.{rules};

use std::cmp::Ordering;
use std::marker::Model;

// `2 ^ 64`.
const RADIX: i128 = 18_446_744_073_709_551_616;

/// A number of 128 bits in two halves: an `i128` would align all that holds it at 16 bytes.
#[derive(Clone, Copy)]
pub(crate) struct Wide {
    high: i64,
    low: u64,
}

impl Model for Wide {
    ghost use Rattle.std.specs.Prelude.{ℤ, ◌^◌, ◌<◌};
    ghost use Rattle.ob_values.specs.Wide.{joined, high_half, low_half, high_half-joined, low_half-joined};

    ghost Value = { ℤ };

    ghost view = { λ w. joined w.high w.low };

    ghost invariant = { λ w. w.low < 2 ^ 64 };

    ghost inverse = { λ z. record { high = high_half z; low = low_half z } };

    ghost inverse_ok = { λ w h i. record {
      high = high_half-joined w.high w.low h i;
      low = low_half-joined w.high w.low h i;
    } };
}

impl Wide {
    // The number, split.
    pub(crate) fn new(number: i128) -> Wide
        ensures { result ≡ number }
    {
        let high = number >> 64;
        Wide {
            high: high as i64,
            low: (number - high * RADIX) as u64,
        }
    }

    // The number, joined again.
    pub(crate) fn get(&self) -> i128
        ensures { result ≡ self.now }
    {
        self.high as i128 * RADIX + self.low as i128
    }
}

impl PartialEq for Wide {
    ghost eq = { int_eq };

    ghost laws = { Prim.search (comparing, rules) };

    fn eq(&self, other: &Wide) -> bool {
        self.get() == other.get()
    }
}

impl Eq for Wide {
    ghost laws = { Prim.search rules };
}

impl Ord for Wide {
    ghost cmp = { int_cmp };

    ghost total = { Prim.search rules };

    ghost matches_partial_cmp = { Prim.search rules };

    ghost matches_eq = { Prim.search rules };

    fn cmp(&self, other: &Wide) -> Ordering {
        self.get().cmp(&other.get())
    }
}

impl PartialOrd for Wide {
    ghost partial_cmp = { as_partial_cmp int_cmp };

    ghost laws = { Prim.search (comparing, rules) };

    fn partial_cmp(&self, other: &Wide) -> Option<Ordering> {
        Some(self.cmp(other))
    }
}
