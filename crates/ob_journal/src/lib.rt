//! A journal on a device: entries, each on the disk before it is acknowledged, that a crash at any moment leaves whole.
//!
//! `specs/Device.antt` says what a crash may do to a file, `specs/Journal.antt` what a file says. [`find`] reads how far the
//! entries of a file go, [`repair`] mends its end, and [`Journal::append`] adds an entry.
#![tactic(auto)]

mod device;
mod devices;
mod journal;
mod laws;
mod memory;
mod opening;
mod shape;
mod sized;

pub use device::{Device, DeviceFault};
pub use devices::Devices;
pub use journal::{AppendFault, Journal, MAX_BYTES};
pub use laws::one_meaning;
pub use memory::MemDevice;
pub use opening::{Extent, NoJournal, find, repair};
pub use shape::Shape;
pub use sized::Sized;
