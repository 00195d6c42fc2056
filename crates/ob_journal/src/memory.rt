//! A file in memory that may be cut off at any byte: after so many bytes and calls a write is torn there, and each later call
//! fails. It keeps each past content, so that contracts can speak of all that a crash might have left.
ghost use Rattle.std.specs.Prelude.{◌≡◌, ◌↔◌, ◌⊎◌, true, ◌≤◌, ⊤, [], ◌∷◌, ◌++◌, length, drop, IfOk, OnOk, OnErr};
ghost use Rattle.std.proofs.Common.{inl};
ghost use Rattle.ob_io.specs.Faults.{Rose};
ghost use Rattle.ob_journal.specs.Device.{Holds};
ghost use Rattle.ob_journal.specs.Past.{HadBeen, only_bytes};

use crate::{Device, DeviceFault};
use ob_io::Cause;
use std::alloc::{AllocError, Global};

/// A file in memory, all of it on the disk at each moment.
#[derive(Drop)]
pub struct MemDevice {
    alloc: Global,
    bytes: Vec<u8>,
    past: Vec<Vec<u8>>,
    // how many bytes may still be written, where a read, a cut and a sync count as one each
    left: u64,
    // what stands in the rest of a torn range
    filler: u8,
    faults: u64,
    // what its refused calls tell
    cause: Cause,
}

impl MemDevice {
    ghost use Rattle.ob_journal.specs.Memory.{device_bytes};

    /// A file with these bytes that is cut off after so many more: a write that there isn't room for is torn, and what of its
    /// range isn't written holds `filler`. A read, a cut and a sync count as one byte each. It has not failed.
    pub fn new(alloc: Global, bytes: Vec<u8>, left: u64, filler: u8) -> MemDevice
        ensures bytes { device_bytes result ≡ bytes.items }
        ensures faults { result.faults ≡ 0 }
        ensures cause { result.cause ≡ Cause.Untold }
    {
        MemDevice {
            alloc,
            bytes,
            past: Vec::new(alloc),
            left,
            filler,
            faults: 0,
            cause: Cause::Untold,
        }
    }

    /// The file whose refused calls tell this cause.
    pub fn telling(self, cause: Cause) -> MemDevice
        ensures { result ≡ record self { cause = cause } }
    {
        let mut device = self;
        device.cause = cause;
        device
    }

    /// What its refused calls tell.
    pub fn cause(&self) -> Cause
        ensures { result ≡ self.now.cause }
    {
        self.cause
    }

    /// Its bytes.
    pub fn bytes(&self) -> &[u8]
        ensures { result.now ≡ device_bytes self.now }
    {
        &self.bytes
    }

    /// Whether a call has failed.
    pub fn has_failed(&self) -> bool
        ensures { (result ≡ true) ↔ ¬ (self.now.faults ≡ 0) }
    {
        self.faults > 0
    }

    /// How many bytes may still be written, until it is cut off.
    pub fn left(&self) -> u64
        ensures { result ≡ self.now.left }
    {
        self.left
    }
}

// Counts a fault. Nothing is left then.
fn fail(faults: &mut u64, left: &mut u64) -> DeviceFault
    ensures fault { result ≡ DeviceFault.Failed }
    ensures rose { Rose faults.old faults.new }
    ensures later { faults.old ≤ faults.new }
{
    *faults = faults.saturating_add(1);
    *left = 0;
    DeviceFault::Failed
}

// Takes so many from what is left, or fails.
fn spend(faults: &mut u64, left: &mut u64, count: u64) -> Result<(), DeviceFault>
    ensures ok { OnOk result (faults.new ≡ faults.old) }
    ensures err { OnErr result (Rose faults.old faults.new) }
    ensures which { OnErr result (result ≡ Err DeviceFault.Failed) }
    ensures later { faults.old ≤ faults.new }
{
    if *left < count {
        return Err(fail(faults, left));
    }
    *left -= count;
    Ok(())
}

// Puts other bytes in the place of those that are there, which it keeps.
fn replace(
    alloc: Global,
    bytes: &mut Vec<u8>,
    past: &mut Vec<Vec<u8>>,
    next: Vec<u8>,
) -> Result<(), AllocError>
    ensures ok { OnOk result (bytes.new.items ≡ next.items) }
    ensures err { OnErr result (bytes.new.items ≡ bytes.old.items) }
    ensures past { OnOk result ((v : _) × (v.items ≡ bytes.old.items) × (past.new.items ≡ past.old.items ++ v ∷ [])) }
    ensures past_err { OnErr result (past.new.items ≡ past.old.items) }
{
    past.push(bytes.to_vec(alloc)?)?;
    *bytes = next;
    Ok(())
}

// The bytes with these at an offset.
fn placed(alloc: Global, old: &[u8], at: usize, bytes: &[u8]) -> Result<Vec<u8>, AllocError>
    requires { at ≤ length old.now }
    ensures { IfOk result (λ next. Holds old.now at bytes.now next.items) }
{
    let mut next = old[..at].to_vec(alloc)?;
    next.extend_from_slice(bytes)?;
    if bytes.len() < old.len() - at {
        next.extend_from_slice(&old[at + bytes.len()..])?;
    }
    Ok(next)
}

// A front of the bytes, and the filler in the place of the rest.
fn torn(alloc: Global, bytes: &[u8], front: usize, filler: u8) -> Result<Vec<u8>, AllocError>
    requires { front ≤ length bytes.now }
    ensures { IfOk result (λ torn. length torn.items ≡ length bytes.now) }
{
    let mut torn = bytes.to_vec(alloc)?;
    torn[front..].fill(filler);
    Ok(torn)
}

impl Device for MemDevice {
    ghost is_told = { ⊤ };

    ghost seen = { λ m. m.bytes.items };

    ghost may_leave = { λ m c. c ≡ m.bytes.items };

    ghost moment = { λ m. length m.past.items };

    ghost left_since = { λ m t c. (c ≡ m.bytes.items) ⊎ HadBeen (drop t m.past.items) c };

    ghost faults = { λ m. m.faults };

    ghost refusal = { λ m. m.cause };

    ghost counts_now = { λ m t c le now. inl now };

    ghost only_now = { λ m c left. only_bytes m.past.items m.bytes.items c left };

    fn read(&mut self, alloc: Global) -> Result<Vec<u8>, DeviceFault> {
        spend(&mut self.faults, &mut self.left, 1)?;
        Ok(self.bytes.to_vec(alloc)?)
    }

    fn write_at(&mut self, at: usize, bytes: &[u8]) -> Result<(), DeviceFault> {
        let count = bytes.len() as u64;
        if self.left < count {
            let piece = torn(self.alloc, bytes, self.left as usize, self.filler)?;
            let next = placed(self.alloc, &self.bytes, at, &piece)?;
            replace(self.alloc, &mut self.bytes, &mut self.past, next)?;
            return Err(fail(&mut self.faults, &mut self.left));
        }
        let next = placed(self.alloc, &self.bytes, at, bytes)?;
        replace(self.alloc, &mut self.bytes, &mut self.past, next)?;
        self.left -= count;
        Ok(())
    }

    fn cut(&mut self, len: usize) -> Result<(), DeviceFault> {
        spend(&mut self.faults, &mut self.left, 1)?;
        let next = self.bytes[..len].to_vec(self.alloc)?;
        Ok(replace(self.alloc, &mut self.bytes, &mut self.past, next)?)
    }

    fn sync(&mut self) -> Result<(), DeviceFault> {
        spend(&mut self.faults, &mut self.left, 1)
    }
}
