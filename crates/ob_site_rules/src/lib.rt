//! What the site is, and what a document opens, as definitions, and the types that definitions and code have in common.
#![tactic(auto)]

mod build;
mod fault;
mod fixed;
mod plan;
mod request;
mod resource;
mod roles;
mod site_rule;
mod watch_part;

pub use build::nameless;
pub use fault::Fault;
pub use fixed::Fixed;
pub use plan::{Plan, PointRule};
pub use request::Request;
pub use resource::Resource;
pub use roles::Roles;
pub use site_rule::SiteRule;
pub use watch_part::WatchPart;
