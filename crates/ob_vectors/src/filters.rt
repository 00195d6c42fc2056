//! Filters and queries read from objects.
use crate::words::time_at;
use ob_history::{Filter, Query, read_filter, read_query};
use ob_object::{Kind, Obj, Slot};
use ob_rows::{Row, Table, push_number, word_at};
use ob_values::{Text, Value};
use std::alloc::{AllocError, Global};

/// Rows that tell an object, and what it is as a filter, or as a query.
#[derive(Drop)]
pub(crate) struct Filters;

fn kind_at(row: &str, place: usize) -> Kind {
    match word_at(row, place) {
        "obj" => Kind::Obj,
        "list" => Kind::List,
        "int" => Kind::Int,
        "real" => Kind::Real,
        "abstime" => Kind::Abstime,
        "date" => Kind::Date,
        _ => Kind::Str,
    }
}

fn slot_at(row: &str, place: usize) -> Slot {
    if let Some(time) = time_at(row, place) {
        return Slot::Is(Value::Abstime(time));
    }
    match word_at(row, place).parse::<i64>() {
        Ok(number) => Slot::Is(Value::Int(number)),
        Err(_) if word_at(row, place) == "null" => Slot::Null,
        Err(_) => Slot::Absent,
    }
}

fn object_at(alloc: Global, row: &str, kind: usize, slot: usize) -> Obj {
    let mut object = Obj::new(alloc, kind_at(row, kind));
    let _ = object.put_slot(slot_at(row, slot));
    object
}

// The child that three words tell.
fn child_at(alloc: Global, row: &str, place: usize) -> Obj {
    let name = Text::from_utf8(alloc, word_at(row, place.saturating_add(1)).as_bytes());
    let mut child = object_at(alloc, row, place, place.saturating_add(2));
    let _ = child.put_name(name.ok());
    child
}

fn object(alloc: Global, row: &str) -> Obj {
    let mut object = object_at(alloc, row, 0, 1);
    for place in [2, 5, 8] {
        if !word_at(row, place).is_empty() {
            let _ = object.push(child_at(alloc, row, place));
        }
    }
    object
}

// The filter of a row's object, or of none.
fn read(alloc: Global, row: &str) -> Option<Filter> {
    if row == "none" {
        return read_filter(None);
    }
    read_filter(Some(&object(alloc, row)))
}

// The query of a row's object, or of none.
fn read_as_query(alloc: Global, row: &str) -> Option<Query> {
    if row == "none" {
        return read_query(None);
    }
    read_query(Some(&object(alloc, row)))
}

fn tell_filter(filter: &Filter, told: &mut String) -> Result<(), AllocError> {
    let start = if filter.start.is_some() { "start" } else { "-" };
    let end = if filter.end.is_some() { "end" } else { "-" };
    push_number(told, filter.limit)?;
    told.push_str(" ")?;
    told.push_str(start)?;
    told.push_str(" ")?;
    told.push_str(end)
}

fn query_row(alloc: Global, row: &str, told: &mut String) -> Result<(), AllocError> {
    let Some(query) = read_as_query(alloc, row) else {
        return told.push_str("no query");
    };
    tell_filter(&query.filter, told)?;
    match query.from {
        Some(from) => {
            told.push_str(" from ")?;
            push_number(told, from)
        }
        None => Ok(()),
    }
}

impl Table for Filters {
    fn answer(&mut self, alloc: Global, asked: Row, told: &mut String) -> Result<(), AllocError> {
        if let Some(row) = asked.text.strip_prefix("query ") {
            return query_row(alloc, row, told);
        }
        match read(alloc, asked.text) {
            Some(filter) => tell_filter(&filter, told),
            None => told.push_str("no filter"),
        }
    }
}
