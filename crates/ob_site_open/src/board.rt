//! The alarms that a site is opened with: none yet.
ghost use Rattle.std.specs.Prelude.{◌≡◌, [], IfOk};
ghost use Rattle.std.specs.List.{All};
ghost use Rattle.ob_alarms.specs.Limits.{IsRule};
ghost use Rattle.ob_site_rules.specs.State.{numbered_from};

use ob_alarms::{Alarms, Rule};
use ob_site_rules::{Plan, PointRule};
use std::alloc::{AllocError, Global};

// The rules, each with its place as the number of its source.
fn rules_of(alloc: Global, rules: &[PointRule]) -> Result<Vec<Rule>, AllocError>
    ensures { IfOk result (λ made. made.items ≡ numbered_from 0 rules.now) }
{
    let mut made = Vec::new(alloc);
    for place in 0..rules.len() {
        let rule = &rules[place];
        let path = rule.source.copy()?;
        made.push(Rule {
            source: place as u64,
            path,
            low: rule.low,
            high: rule.high,
            needs_ack: rule.needs_ack,
        })?;
    }
    Ok(made)
}

/// No alarms yet, with the rules of the plan. An error only for want of memory.
pub(crate) fn board_of(alloc: Global, plan: &Plan) -> Result<Alarms, AllocError>
    requires { All IsRule (numbered_from 0 plan.now.rules) }
    ensures { IfOk result (λ b. b ≡ record { root = plan.now.root; rules = numbered_from 0 plan.now.rules; alarms = []; events = []; spare = 0 }) }
{
    let rules = rules_of(alloc, plan.rules.as_slice())?;
    let root = plan.root.copy()?;
    let board = Alarms::new(alloc, root, rules)?;
    Ok(board)
}
