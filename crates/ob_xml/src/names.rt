//! The names of a tag's attributes, or of an element's children.

ghost use Rattle.std.specs.Prelude.{◌≡◌, ◌≤◌, ◌<◌, ◌++◌, length, vec_len, OnOk, IfOk};
ghost use Rattle.std.specs.Ordering.{nat_cmp};
ghost use Rattle.std.specs.Cmp.Lexicographic.{slice_cmp};
ghost use Rattle.std.specs.FinSet as set;
ghost use Rattle.ob_xml.specs.Codes.{code_of};

use std::alloc::{AllocError, Global};
use std::collections::BTreeSet;
use std::marker::Model;

/// The most bytes of a name that is kept as a number.
const MAX_SHORT: usize = 15;

/// The most numbers that stand in a row, before the ordered set of numbers is begun.
const FEW: usize = 16;

/// Names, seen as a set. A short one is kept as a number, which is compared at once and takes no memory of its own; the
/// first few stand in a row, where they are found and put at less cost than in an ordered set.
pub struct Names {
    few: Vec<u128>,
    short: BTreeSet<u128>,
    long: BTreeSet<Vec<u8>>,
}

impl Drop for Names {
    // By one call for each part, so that to drop names is one call to whoever may have to.
    fn drop(self) {
        let Names { few, short, long } = self;
        drop(few);
        drop(short);
        drop(long);
    }
}

impl Model for Names {
    ghost use Rattle.std.specs.Prelude.{map, ◌++◌};
    ghost use Rattle.std.specs.Ordering.{nat_cmp};
    ghost use Rattle.std.specs.Cmp.Lexicographic.{slice_cmp};
    ghost use Rattle.std.specs.FinSet as set;
    ghost use Rattle.std.specs.Coded.{coded_ℕ, coded_list};
    ghost use Rattle.ob_xml.specs.Codes.{name_of, AreCodes, AreLong};

    ghost Value = { set.FinSet (slice_cmp nat_cmp) };

    ghost coded = { set.code (coded_list coded_ℕ) };

    ghost view = { λ n. set.from_list (map name_of (n.few.items ++ n.short.keys) ++ map (λ v. v.items) n.long.keys) };

    ghost invariant = { λ n. AreCodes (n.few.items ++ n.short.keys) × AreLong (map (λ v. v.items) n.long.keys) };
}

/// The number of a short name.
fn code(name: &[u8]) -> u128
    requires { length name.now ≤ 15 }
    ensures { result ≡ code_of name.now }
{
    let mut code = 1;
    for byte in name {
        code = code * 256 + u128::from(*byte);
    }
    code
}

impl Names {
    pub fn new(alloc: Global) -> Names
        ensures { result ≡ set.empty }
    {
        Names {
            few: Vec::new(alloc),
            short: BTreeSet::new(alloc),
            long: BTreeSet::new(alloc),
        }
    }

    /// Whether the name is among them.
    pub fn has(&self, name: &[u8]) -> bool
        ensures { result ≡ set.contains self.now name.now }
    {
        if name.len() <= MAX_SHORT {
            let number = code(name);
            if self.few.contains(&number) {
                return true;
            }
            self.short.contains(&number)
        } else {
            self.long.contains(name)
        }
    }

    fn add_few(&mut self, name: &[u8]) -> Result<(), AllocError>
        requires { length name.now ≤ 15 }
        ensures { IfOk result (λ _. self.new ≡ set.insert self.old name.now) }
    {
        self.few.push(code(name))?;
        Ok(())
    }

    fn add_short(&mut self, name: &[u8]) -> Result<(), AllocError>
        requires { length name.now ≤ 15 }
        ensures { IfOk result (λ _. self.new ≡ set.insert self.old name.now) }
    {
        self.short.insert(code(name))?;
        Ok(())
    }

    fn add_long(&mut self, name: Vec<u8>) -> Result<(), AllocError>
        requires { 15 < vec_len name }
        ensures { IfOk result (λ _. self.new ≡ set.insert self.old name.items) }
    {
        self.long.insert(name)?;
        Ok(())
    }

    /// Takes one name more. After want of memory they are names still, of which nothing more is said.
    pub fn add(&mut self, alloc: Global, name: &[u8]) -> Result<(), AllocError>
        ensures { IfOk result (λ _. self.new ≡ set.insert self.old name.now) }
    {
        if name.len() > MAX_SHORT {
            let name = Vec::from_slice(alloc, name)?;
            return self.add_long(name);
        }
        if self.few.len() < FEW {
            self.add_few(name)
        } else {
            self.add_short(name)
        }
    }
}
