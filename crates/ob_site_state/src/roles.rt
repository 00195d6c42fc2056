//! The roles of a plan.
ghost use Rattle.std.specs.Prelude.{◌≡◌, IfOk};
ghost use Rattle.ob_alarms.specs.Lists.{first_place};
ghost use Rattle.ob_site_rules.specs.declared.plan.Plan.{Plan};
ghost use Rattle.ob_site_rules.specs.State.{is_among};
ghost use Rattle.ob_site_rules.specs.Shown.{rule_of};
ghost use Rattle.ob_site_state.specs.Roles.{is_at, stands_at, recorders_of, AreRoles};

use crate::places::{histories_by_path, leads, paths_by_path, rules_by_source};
use crate::recorders::{places_at, recorders_by_source};
use ob_site_rules::Plan;
use ob_values::Text;
use std::alloc::{AllocError, Global};
use std::collections::BTreeMap;

/// What a plan says of each path, for look-ups: the place of the rule of each source, of each point, and of the history
/// at each path; and the places of the histories of each source.
pub struct RoleIndex {
    rules: BTreeMap<String, usize>,
    points: BTreeMap<String, usize>,
    histories: BTreeMap<String, usize>,
    recorders: BTreeMap<String, Vec<usize>>,
}

impl Drop for RoleIndex {
    // By one call for each part, so that to drop it is one call to whoever may have to.
    fn drop(self) {
        let RoleIndex {
            rules,
            points,
            histories,
            recorders,
        } = self;
        drop(rules);
        drop(points);
        drop(histories);
        drop(recorders);
    }
}

impl RoleIndex {
    /// The roles of a plan. An error only for want of memory.
    pub fn of(alloc: Global, plan: &Plan) -> Result<RoleIndex, AllocError>
        ensures { IfOk result (λ roles. AreRoles roles plan.now) }
    {
        let rules = rules_by_source(alloc, plan.rules.as_slice())?;
        let points = paths_by_path(alloc, plan.points.as_slice())?;
        let histories = histories_by_path(alloc, plan.histories.as_slice())?;
        let recorders = recorders_by_source(alloc, plan.histories.as_slice())?;
        Ok(RoleIndex {
            rules,
            points,
            histories,
            recorders,
        })
    }

    /// The place of the rule of a node, if it has one.
    pub fn rule_of(&self, path: &Text) -> Option<usize>
        ensures { (plan : Plan) → AreRoles self.now plan → result ≡ rule_of plan path.now }
    {
        self.rules.get(path.as_str()).copied()
    }

    /// The place of the writable point at a path, if there is one.
    pub fn point_at(&self, path: &Text) -> Option<usize>
        ensures { (plan : Plan) → AreRoles self.now plan → result ≡ first_place (is_at path.now) plan.points }
    {
        self.points.get(path.as_str()).copied()
    }

    /// Whether there is a writable point at a path.
    pub fn is_point(&self, path: &Text) -> bool
        ensures { (plan : Plan) → AreRoles self.now plan → result ≡ is_among path.now plan.points }
    {
        leads(&self.points, path)
    }

    /// The place of the history at a path, if there is one.
    pub fn history_at(&self, path: &Text) -> Option<usize>
        ensures { (plan : Plan) → AreRoles self.now plan → result ≡ first_place (stands_at path.now) plan.histories }
    {
        self.histories.get(path.as_str()).copied()
    }

    /// The places of the histories that record a node, in order.
    pub fn recorders(&self, source: &Text) -> &[usize]
        ensures { (plan : Plan) → AreRoles self.now plan → result.now ≡ recorders_of plan source.now }
    {
        places_at(&self.recorders, source)
    }
}
