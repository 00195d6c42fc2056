//! Files of weekly schedules for one writable point: why one is none, or what it has in force and when it fires.
ghost use Rattle.std.specs.Prelude.{cond, codes, Some, None};
ghost use Rattle.std.specs.Str.{bytes_eq};
ghost use Rattle.ob_object.specs.declared.kind.Kind.TheVariants as kind;
ghost use Rattle.ob_object.specs.Fits.{fits_value};

use crate::firings::tell_firings;
use crate::spelled::{object, push_object};
use ob_object::{Kind, Obj, Slot};
use ob_rows::{Row, Table};
use ob_schedule::{Points, ScheduleFault, read_schedules};
use ob_times::Moment;
use ob_values::{Text, Value};
use ob_weekly::Schedules;
use std::alloc::{AllocError, Global};

/// A file of schedules for `/obix/t`, to which each real may be written: the first part that offends and its rule, or what is in
/// force of its first two schedules at `MOMENTS`, and behind a bar for each of `SPANS` what fires in it.
#[derive(Drop)]
pub(crate) struct ScheduleFiles;

const MOMENTS: [u64; 4] = [0, 1_767_600_000_000, 1_793_511_000_000, 253_402_300_799_999];

const SPANS: [(u64, u64); 7] = [
    (0, 0),
    (1_767_600_000_000, 1_768_204_800_000),
    (1_772_928_000_000, 1_773_014_400_000),
    (1_793_491_200_000, 1_793_577_600_000),
    (0, 253_402_300_799_999),
    (1_774_656_000_000, 1_774_915_200_000),
    (1_764_575_999_999, 1_767_600_000_000),
];

// The point at `/obix/t`, to which each real may be written.
struct OnePoint;

impl Points for OnePoint {
    ghost rules = { λ _. record { kind_at = λ t. cond (bytes_eq t (codes "/obix/t")) (Some kind.Real) None; lets = λ t v. fits_value kind.Real v } };

    fn kind_at(&self, path: &Text) -> Option<Kind> {
        if path.as_str() == "/obix/t" {
            Some(Kind::Real)
        } else {
            None
        }
    }

    fn lets(&self, _path: &Text, value: &Value) -> Result<bool, AllocError> {
        Ok(Kind::Real.fits_value(value))
    }
}

fn tell_spans(alloc: Global, schedules: &Schedules, told: &mut String) -> Result<(), AllocError> {
    for (from, to) in SPANS {
        let (Some(from), Some(to)) = (Moment::new(from), Moment::new(to)) else {
            return told.push_str("no moments");
        };
        told.push_str("| ")?;
        tell_firings(alloc, schedules, from, to, told)?;
    }
    Ok(())
}

// An object of this kind with this slot, if there is one.
fn with_slot(alloc: Global, kind: Kind, slot: Slot) -> Option<Obj> {
    let mut object = Obj::new(alloc, kind);
    match object.put_slot(slot) {
        Ok(()) => Some(object),
        Err(_) => None,
    }
}

fn copied(slot: &Slot) -> Result<Slot, AllocError> {
    match slot {
        Slot::Is(value) => Ok(Slot::Is(value.copy()?)),
        Slot::Null => Ok(Slot::Null),
        Slot::Absent => Ok(Slot::Absent),
    }
}

fn tell_in_force(
    alloc: Global,
    schedules: &Schedules,
    schedule: u32,
    moment: u64,
    told: &mut String,
) -> Result<(), AllocError> {
    let Some(moment) = Moment::new(moment) else {
        return told.push_str("no moment");
    };
    if schedules.list.len() <= schedule as usize {
        return Ok(());
    }
    let kind = schedules.list[schedule as usize].kind;
    let slot = copied(schedules.in_force(alloc, schedule, moment)?)?;
    match &with_slot(alloc, kind, slot) {
        Some(object) => push_object(alloc, None, object, told)?,
        None => told.push_str("unfit")?,
    }
    told.push_str(" ")
}

fn tell(alloc: Global, schedules: &Schedules, told: &mut String) -> Result<(), AllocError> {
    for schedule in 0..2u32 {
        for moment in MOMENTS {
            tell_in_force(alloc, schedules, schedule, moment, told)?;
        }
    }
    tell_spans(alloc, schedules, told)
}

impl Table for ScheduleFiles {
    fn answer(&mut self, alloc: Global, asked: Row, told: &mut String) -> Result<(), AllocError> {
        let Some(root) = object(alloc, asked.text) else {
            return told.push_str("no document");
        };
        match &read_schedules(alloc, &root, &OnePoint) {
            Ok(schedules) => tell(alloc, schedules, told),
            Err(ScheduleFault::Memory) => Err(AllocError),
            Err(fault) => write!(told, "{fault}"),
        }
    }
}
