//! Journals' files on a real disk: made, appended to, locked, refused, full.
use ob_io::Cause;
use ob_journal::{Device, DeviceFault, Devices, Extent, Journal, Sized, find, repair};
use ob_system::{DiskDevices, DiskFile};
use std::alloc::Global;
use std::fs;
use std::fs::{File, OpenOptions};
use std::os::unix::fs::PermissionsExt;
use std::test::Fail;

const FOLDER: &str = "ob_system_disk_test";

const NAME: &str = "ob_system_disk_test/run.record";

/// A folder with no file in it.
fn emptied(rt: &HostRuntime) -> Result<(), Fail> {
    let _ = fs::remove_dir_all(rt, FOLDER);
    fs::create_dir(rt, FOLDER)?;
    Ok(())
}

type Disk<'a> = DiskDevices<'a, HostRuntime>;

/// Whether the file of that name has these bytes.
fn has_bytes(rt: &HostRuntime, bytes: &[u8]) -> bool {
    match &fs::read(rt, NAME) {
        Ok(found) => found.as_slice() == bytes,
        Err(_) => false,
    }
}

/// Whether a device reads these bytes.
fn reads(alloc: Global, device: &mut DiskFile, bytes: &[u8]) -> bool {
    match &device.read(alloc) {
        Ok(read) => read.as_slice() == bytes,
        Err(_) => false,
    }
}

/// Whether the entries of a device's file go so far.
fn goes_to(alloc: Global, device: &mut DiskFile, extent: Extent) -> bool {
    match &device.read(alloc) {
        Ok(bytes) => find::<Sized>(bytes) == Ok(extent),
        Err(_) => false,
    }
}

/// Opens the file's journal, whose entries are to go so far.
fn opened(alloc: Global, devices: &mut Disk<'_>, extent: Extent) -> Option<Journal<DiskFile>> {
    let mut device = devices.open(alloc, NAME).ok()?;
    if !goes_to(alloc, &mut device, extent) {
        return None;
    }
    match repair::<DiskFile, Sized>(&mut device, extent) {
        Ok(end) => Some(Journal { device, end }),
        Err(_) => None,
    }
}

fn appends_two(journal: &mut Journal<DiskFile>) -> bool {
    journal.append::<Sized>(b"\x01a\0").is_ok() && journal.append::<Sized>(b"\x02bc\0").is_ok()
}

/// Whether a file is made, and has the two entries that are appended.
fn is_made(rt: &HostRuntime, devices: &mut Disk<'_>) -> bool {
    let Some(mut journal) = opened(rt.alloc(), devices, Extent::Unmade) else {
        return false;
    };
    let are_appended = appends_two(&mut journal);
    let is_failed = devices.back(journal.device);
    are_appended && !is_failed && has_bytes(rt, b"obix-record 1\n\x01a\n\x02bc\0")
}

/// Whether a journal's file ends behind its gate.
fn ends_at_gate(alloc: Global, journal: &mut Journal<DiskFile>) -> bool {
    journal.end == 16
        && reads(alloc, &mut journal.device, b"obix-record 1\n\x01a\0")
        && journal.device.fault_count() == 0
}

/// Whether what a crash left behind the gate is cut off.
fn is_cut_off(alloc: Global, devices: &mut Disk<'_>) -> bool {
    let Some(mut journal) = opened(alloc, devices, Extent::Entries { end: 16 }) else {
        return false;
    };
    let is_cut = ends_at_gate(alloc, &mut journal);
    let is_failed = devices.back(journal.device);
    is_cut && !is_failed
}

#[test]
fn a_file_is_made_appended_to_and_read_again(rt: HostRuntime) -> Result<(), Fail> {
    emptied(&rt)?;
    let mut devices = DiskDevices::new(&rt);
    assert!(rt; is_made(&rt, &mut devices));
    fs::write(&rt, NAME, b"obix-record 1\n\x01a\0\x02b".as_slice())?;
    assert!(rt; is_cut_off(rt.alloc(), &mut devices));
    assert!(rt; devices.fault_count() == 0);
    Ok(())
}

/// Whether a file can't be opened.
fn fails(alloc: Global, devices: &mut Disk<'_>, name: &str) -> bool {
    matches!(&devices.open(alloc, name), Err(DeviceFault::Failed))
}

/// Whether a file that is open can't be opened again.
fn is_locked(alloc: Global, devices: &mut Disk<'_>) -> bool {
    let Ok(device) = devices.open(alloc, NAME) else {
        return false;
    };
    let is_locked = fails(alloc, devices, NAME) && devices.fault_count() == 1;
    let is_failed = devices.back(device);
    is_locked && !is_failed
}

#[test]
fn a_file_has_one_owner(rt: HostRuntime) -> Result<(), Fail> {
    emptied(&rt)?;
    let mut devices = DiskDevices::new(&rt);
    assert!(rt; is_locked(rt.alloc(), &mut devices));
    assert!(rt; devices.open(rt.alloc(), NAME).is_ok());
    assert!(rt; devices.fault_count() == 1);
    assert!(rt; devices.last_cause() == Cause::Locked);
    Ok(())
}

/// A folder, a name below no folder, below a file, what is no regular file, and one that may not be written; root may write it.
#[test]
fn what_cannot_be_opened_is_counted(rt: HostRuntime) -> Result<(), Fail> {
    emptied(&rt)?;
    let mut devices = DiskDevices::new(&rt);
    for (name, faults, cause) in [
        (FOLDER, 1, Cause::IsFolder),
        ("/nowhere/at/all", 2, Cause::NoFolder),
        ("/dev/null/record", 3, Cause::NoFolder),
        ("/dev/full", 4, Cause::Untold),
        ("/dev/zero", 5, Cause::Untold),
        ("", 6, Cause::Untold),
    ] {
        assert!(rt; fails(rt.alloc(), &mut devices, name), "{name}");
        assert!(rt; devices.fault_count() == faults, "{name}");
        assert!(rt; devices.last_cause() == cause, "{name}");
    }
    fs::write(&rt, NAME, b"obix-record 1\0".as_slice())?;
    fs::set_permissions(&rt, NAME, fs::Permissions::from_mode(0o444))?;
    let is_refused = OpenOptions::new().write(true).open(&rt, NAME).is_err();
    assert!(rt; devices.open(rt.alloc(), NAME).is_err() == is_refused);
    assert!(rt; devices.fault_count() == 6 + u64::from(is_refused));
    let cause = if is_refused {
        Cause::NotAllowed
    } else {
        Cause::Untold
    };
    assert!(rt; devices.last_cause() == cause);
    Ok(())
}

/// Whether each call that changes a file is a fault, where it may only be read.
fn only_reads(alloc: Global, file: File) -> bool {
    let mut device = DiskFile::new(file);
    device.write_at(0, b"x") == Err(DeviceFault::Failed)
        && device.cut(1) == Err(DeviceFault::Failed)
        && device.fault_count() == 2
        && reads(alloc, &mut device, b"obix-record 1\0")
}

/// Whether each call on a full disk is a fault.
fn fails_full(alloc: Global, device: &mut DiskFile) -> bool {
    device.write_at(0, b"x") == Err(DeviceFault::Failed)
        && device.read(alloc).is_err()
        && device.fault_count() == 2
}

/// Whether a journal on a full disk fails, and its device is counted when it comes back.
fn is_full(alloc: Global, devices: &mut Disk<'_>, file: File) -> bool {
    let mut device = DiskFile::new(file);
    let is_full = fails_full(alloc, &mut device);
    let mut journal = Journal { device, end: 13 };
    let fails = journal.append::<Sized>(b"\x01a\0").is_err() && journal.device.fault_count() == 3;
    let is_failed = devices.back(journal.device);
    is_full && fails && is_failed
}

#[test]
fn calls_that_fail_are_counted(rt: HostRuntime) -> Result<(), Fail> {
    emptied(&rt)?;
    fs::write(&rt, NAME, b"obix-record 1\0".as_slice())?;
    let reader = File::open(&rt, NAME)?;
    assert!(rt; only_reads(rt.alloc(), reader));
    let full = OpenOptions::new().write(true).open(&rt, "/dev/full")?;
    let mut devices = DiskDevices::new(&rt);
    assert!(rt; is_full(rt.alloc(), &mut devices, full));
    assert!(rt; devices.fault_count() == 1);
    assert!(rt; devices.last_cause() == Cause::Full);
    Ok(())
}
