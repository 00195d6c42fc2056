//! The values of objects: texts, and the ten kinds of values, each with its one reader and its one
//! printer. A reader answers the value that its bytes spell, or which fault they have; what is printed
//! of a value spells that value. Bytes and a request's verb are here too.
#![tactic(auto)]

mod bytes;
mod decimal;
mod fault;
mod integer;
mod print;
mod reading;
mod real;
mod significand;
mod text;
mod truth;
mod value;
mod verb;
mod wide;

pub use bytes::Bytes;
pub use decimal::Dec;
pub use fault::TextFault;
pub use integer::read_int;
pub use ob_spelling::ValueFault;
use ob_times::Moment;
pub use ob_times::{
    Abstime, CivilDate, Reltime, TimeOfDay, read_abstime, read_date, read_reltime, read_time,
};
pub use reading::one_reading;
pub use real::read_dec;
pub use text::Text;
pub use truth::read_bool;
pub use value::{Value, print_value};
pub use verb::Verb;

/// Texts, values, bytes and moments may go to another thread, and several may read them.
pub fn crosses_threads() {
    is_send::<Value>();
    is_sync::<Value>();
    is_send::<Text>();
    is_sync::<Text>();
    is_send::<Bytes>();
    is_sync::<Bytes>();
    is_send::<Moment>();
    is_sync::<Moment>();
}

fn is_send<T: Send>() {}

fn is_sync<T: Sync>() {}
