//! The writable points of a site, as a file of schedules is judged by them.
ghost use Rattle.ob_schedule_rules.specs.Rules.{rules_of};

use ob_load::Site;
use ob_object::Kind;
use ob_schedule::Points;
use ob_values::{Text, Value};
use std::alloc::AllocError;

/// The writable points of a site.
#[derive(Clone, Copy)]
pub(crate) struct SitePoints<'a> {
    pub(crate) site: &'a Site,
}

impl Points for SitePoints<'_> {
    ghost rules = { λ p. rules_of p.site.now };

    fn kind_at(&self, path: &Text) -> Option<Kind> {
        match self.site.point(path) {
            Some(object) => Some(object.kind()),
            None => None,
        }
    }

    fn lets(&self, path: &Text, value: &Value) -> Result<bool, AllocError> {
        self.site.passes(path, value)
    }
}
