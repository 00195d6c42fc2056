//! The file of a record, in memory.
ghost use Rattle.std.specs.Prelude.{◌≡◌, None, IfOk, IfSome};

use ob_io::Cause;
use ob_journal::{Device, DeviceFault, Devices, MemDevice};
use std::alloc::{AllocError, Global};

/// A file before a run: its bytes, and the number of the call that fails, if one is to. The first opens it; then each byte that is
/// written counts as a call, as do each read, cut and sync. A file that can't be opened is locked, and one that fails later is
/// full.
#[derive(Drop)]
pub(crate) struct RecordFile {
    pub(crate) bytes: Vec<u8>,
    pub(crate) failing: Option<u64>,
}

impl RecordFile {
    /// The file; none, where it can't be opened.
    fn opened(&self, alloc: Global) -> Result<Option<MemDevice>, AllocError>
        ensures { IfOk result (λ opened. IfSome opened (λ device. device.faults ≡ 0)) }
    {
        let left = match self.failing {
            Some(0) => return Ok(None),
            Some(call) => call.saturating_sub(1),
            None => u64::MAX,
        };
        let bytes = self.bytes.to_vec(alloc)?;
        let device = MemDevice::new(alloc, bytes, left, b'?');
        Ok(Some(device.telling(Cause::Full)))
    }
}

/// What opens the file of a record, and the one that is named `new` where there is one, and has them back, that one first.
#[derive(Drop)]
pub(crate) struct Records {
    alloc: Global,
    record: RecordFile,
    new: Option<RecordFile>,
    is_new_open: bool,
    faults: u64,
    refusal: Cause,
    back: Option<MemDevice>,
}

impl Records {
    /// The file of a record; and the one of a new record, if there is one.
    pub(crate) fn new(alloc: Global, record: RecordFile, new: Option<RecordFile>) -> Records {
        Records {
            alloc,
            record,
            new,
            is_new_open: false,
            faults: 0,
            refusal: Cause::Untold,
            back: None,
        }
    }

    /// What the new file has come to; or that of the record, where there is no new one.
    pub(crate) fn bytes(&self) -> &[u8] {
        if let Some(device) = &self.back {
            return device.bytes();
        }
        match &self.new {
            Some(new) => &new.bytes,
            None => &self.record.bytes,
        }
    }

    /// The file of a name; none, where it can't be opened.
    fn opened(&self, name: &str) -> Result<Option<MemDevice>, AllocError>
        ensures { IfOk result (λ opened. IfSome opened (λ device. device.faults ≡ 0)) }
    {
        match &self.new {
            Some(new) if name == "new" => new.opened(self.alloc),
            _ => self.record.opened(self.alloc),
        }
    }
}

impl Devices for Records {
    type D = MemDevice;

    ghost faults = { λ s. s.faults };

    ghost refusal = { λ s. s.refusal };

    ghost given = { λ s. None };

    ghost returned = { λ s. None };

    fn open(&mut self, _: Global, name: &str) -> Result<MemDevice, DeviceFault> {
        match self.opened(name)? {
            Some(device) => {
                self.is_new_open = name == "new";
                Ok(device)
            }
            None => {
                self.faults = self.faults.saturating_add(1);
                self.refusal = Cause::Locked;
                Err(DeviceFault::Failed)
            }
        }
    }

    fn last_cause(&self) -> Cause {
        self.refusal
    }

    fn back(&mut self, device: MemDevice) -> bool {
        let has_failed = device.has_failed();
        if has_failed {
            self.faults = self.faults.saturating_add(1);
            self.refusal = device.cause();
        }
        if self.is_new_open || self.new.is_none() {
            self.back = Some(device);
        }
        self.is_new_open = false;
        has_failed
    }
}
