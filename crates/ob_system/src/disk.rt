//! Files of the disk, over std. They count each error and tell nothing.
ghost use Rattle.std.specs.Prelude.{◌≡◌, ◌≤◌, [], None, IfOk};
ghost use Rattle.ob_io.specs.Faults.{Rose};
ghost use Rattle.ob_journal.specs.Device.{HasDeviceCause, KeepsRefusal};

use crate::cause::cause_of;
use ob_io::Cause;
use ob_journal::{Device, DeviceFault, Devices};
use std::alloc::Global;
use std::fs::{File, TryLockError};
use std::io;
use std::io::{ErrorKind, Read, Seek, SeekFrom};
use std::os::fd::AsRawFd;
use std::os::unix::fs::{FileExt, MetadataExt};
use std::rt::Files as Disk;

/// An open file of the disk, which no other handle has locked.
#[derive(Drop)]
pub struct DiskFile {
    file: File,
    faults: u64,
    refusal: Cause,
}

impl DiskFile {
    /// A file that has not failed yet.
    pub fn new(file: File) -> DiskFile
        ensures { result.faults ≡ 0 }
    {
        DiskFile {
            file,
            faults: 0,
            refusal: Cause::Untold,
        }
    }

    /// How many calls have failed so far, as `faults` of its trait counts them.
    pub fn fault_count(&self) -> u64
        ensures { result ≡ self.now.faults }
    {
        self.faults
    }
}

/// The causes that are told where a name leads nowhere, and where a call would have to wait.
#[derive(Clone, Copy)]
struct Told {
    missing: Cause,
    held: Cause,
}

/// Neither is told of a file that is open.
const OF_OPEN_FILE: Told = Told {
    missing: Cause::Untold,
    held: Cause::Untold,
};

/// What a call of std gave, with its error counted and its cause kept; want of memory is none.
fn counted<T: Drop>(
    faults: &mut u64,
    refusal: &mut Cause,
    given: io::Result<T>,
    told: Told,
) -> Result<T, DeviceFault>
    ensures cause { HasDeviceCause faults.old faults.new result }
    ensures told { KeepsRefusal refusal.old refusal.new result }
{
    match given {
        Ok(value) => Ok(value),
        Err(error) if error.kind() == ErrorKind::OutOfMemory => Err(DeviceFault::Memory),
        Err(error) => {
            *faults = faults.saturating_add(1);
            *refusal = cause_of(error.kind(), told.missing, told.held);
            Err(DeviceFault::Failed)
        }
    }
}

/// All the bytes of a file, in room that is taken once for as many as it tells that it has.
fn read_all(alloc: Global, file: &mut File) -> io::Result<Vec<u8>> {
    let len = file.metadata()?.len() as usize;
    let mut bytes = Vec::with_capacity(alloc, len)?;
    let _ = file.seek(SeekFrom::Start(0))?;
    let _ = file.read_to_end(&mut bytes)?;
    Ok(bytes)
}

impl Device for DiskFile {
    ghost is_told = { ⊥ };

    ghost seen = { λ f. [] };

    ghost may_leave = { λ f c. ⊥ };

    ghost moment = { λ f. 0 };

    ghost left_since = { λ f t c. ⊥ };

    ghost faults = { λ f. f.faults };

    ghost refusal = { λ f. f.refusal };

    ghost counts_now = { λ f t c le left. left };

    ghost only_now = { λ f c left. left };

    fn read(&mut self, alloc: Global) -> Result<Vec<u8>, DeviceFault> {
        let read = read_all(alloc, &mut self.file);
        counted(&mut self.faults, &mut self.refusal, read, OF_OPEN_FILE)
    }

    fn write_at(&mut self, at: usize, bytes: &[u8]) -> Result<(), DeviceFault> {
        let written = self.file.write_all_at(bytes, at as u64);
        counted(&mut self.faults, &mut self.refusal, written, OF_OPEN_FILE)
    }

    fn cut(&mut self, len: usize) -> Result<(), DeviceFault> {
        let cut = self.file.set_len(len as u64);
        counted(&mut self.faults, &mut self.refusal, cut, OF_OPEN_FILE)
    }

    fn sync(&mut self) -> Result<(), DeviceFault> {
        let synced = self.file.sync_data();
        counted(&mut self.faults, &mut self.refusal, synced, OF_OPEN_FILE)
    }
}

/// The files of the disk. A file that another handle has locked, of this process or another, or that is no regular one, can't
/// be opened.
#[derive(Drop)]
pub struct DiskDevices<'a, R> {
    disk: &'a R,
    faults: u64,
    refusal: Cause,
}

impl<'a, R: Disk<File = File>> DiskDevices<'a, R> {
    /// The files of a disk, none of which has failed yet.
    pub fn new(disk: &'a R) -> DiskDevices<'a, R>
        ensures disk { result.disk ≡ disk.entry }
        ensures faults { result.faults ≡ 0 }
    {
        DiskDevices {
            disk,
            faults: 0,
            refusal: Cause::Untold,
        }
    }

    /// How many calls have failed so far, as `faults` of its trait counts them.
    pub fn fault_count(&self) -> u64
        ensures { result ≡ self.now.faults }
    {
        self.faults
    }
}

/// Opens a file to read and write, or makes it.
fn open_or_make<R: Disk<File = File>>(disk: &R, name: &str) -> io::Result<File> {
    let mut how = File::options();
    let _ = how.read(true).write(true).create(true);
    let file = how.open(disk, name)?;
    // What is meant for a standard stream that was closed must not land in the file.
    if file.as_raw_fd() <= 2 {
        return file.try_clone();
    }
    Ok(file)
}

/// Locks a file against all other handles. Fails where it is no regular file, or no longer has the name.
fn lock<R: Disk<File = File>>(disk: &R, name: &str, file: &File) -> io::Result<()> {
    match file.try_lock() {
        Ok(()) => {}
        Err(TryLockError::WouldBlock) => return Err(io::Error::from(ErrorKind::WouldBlock)),
        Err(TryLockError::Error(error)) => return Err(error),
    }
    let (found, named) = (file.metadata()?, disk.metadata(name)?);
    if !found.is_file() || found.dev() != named.dev() || found.ino() != named.ino() {
        return Err(io::Error::from(ErrorKind::Unsupported));
    }
    Ok(())
}

/// Syncs a file and its folder, and drops the system's copies of its pages: what an earlier process wrote is then on the disk,
/// and what a read gives is what is there, also where a sync of that process had failed.
fn settle<R: Disk<File = File>>(
    alloc: Global,
    disk: &R,
    name: &str,
    file: &File,
) -> io::Result<()> {
    file.sync_all()?;
    let advised = libc::posix_fadvise(file.as_raw_fd(), 0, 0, libc::POSIX_FADV_DONTNEED);
    if advised != 0 {
        return Err(io::Error::from_raw_os_error(advised));
    }
    let mut folder = disk.canonicalize(alloc, name)?;
    let _ = folder.pop();
    File::open(disk, folder.as_str())?.sync_all()
}

/// Locks a file, and settles it.
fn take<R: Disk<File = File>>(alloc: Global, disk: &R, name: &str, file: &File) -> io::Result<()> {
    lock(disk, name, file)?;
    settle(alloc, disk, name, file)
}

/// Where no file could be made, its folder isn't there.
const OF_MAKING: Told = Told {
    missing: Cause::NoFolder,
    held: Cause::Untold,
};

/// Where a lock would have to be waited for, somebody else has it.
const OF_TAKING: Told = Told {
    missing: Cause::Untold,
    held: Cause::Locked,
};

impl<'a, R: Disk<File = File>> Devices for DiskDevices<'a, R> {
    type D = DiskFile;

    ghost faults = { λ s. s.faults };

    ghost refusal = { λ s. s.refusal };

    ghost given = { λ s. None };

    ghost returned = { λ s. None };

    fn open(&mut self, alloc: Global, name: &str) -> Result<DiskFile, DeviceFault> {
        // Of no name no folder is wanting.
        let told = if name.is_empty() {
            OF_OPEN_FILE
        } else {
            OF_MAKING
        };
        let made = open_or_make(self.disk, name);
        let file = counted(&mut self.faults, &mut self.refusal, made, told)?;
        let taken = take(alloc, self.disk, name, &file);
        counted(&mut self.faults, &mut self.refusal, taken, OF_TAKING)?;
        Ok(DiskFile::new(file))
    }

    fn last_cause(&self) -> Cause {
        self.refusal
    }

    fn back(&mut self, device: DiskFile) -> bool {
        if device.faults == 0 {
            return false;
        }
        self.faults = self.faults.saturating_add(1);
        self.refusal = device.refusal;
        true
    }
}
