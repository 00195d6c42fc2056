//! Files of weekly schedules: the form of a document that is one, and what it says.
//!
//! `specs/Forms.antt` has the form: which parts of a document offend against it; [`check_form`] tells the first that does.
//! `specs/Weeks.antt` has what a document of that form says; [`read_schedules`] reads it.
#![tactic(auto)]

mod fault;
mod form;
mod judged;
mod point;
mod points;
mod read;
mod rule;

pub use fault::ScheduleFault;
pub use form::check_form;
pub use points::Points;
pub use read::read_schedules;
pub use rule::ScheduleRule;
