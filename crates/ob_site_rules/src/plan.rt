//! What is fixed when a site is opened.
use crate::fixed::Fixed;
use ob_alarms::Num;
use ob_href::Base;
use ob_times::Moment;
use ob_values::Text;

/// Values of the source outside these limits, which are themselves inside, raise an alarm.
#[derive(Drop)]
pub struct PointRule {
    /// The path of the point.
    pub source: Text,
    /// The least value that raises none.
    pub low: Num,
    /// The greatest value that raises none.
    pub high: Num,
    /// Whether its alarms wait for an acknowledgement.
    pub needs_ack: bool,
}

/// What is fixed when a site is opened.
pub struct Plan {
    /// The URL of the root.
    pub base: Base,
    /// The path of the root.
    pub root: Text,
    /// The moment of opening, in definitions its milliseconds.
    pub boot: Moment,
    /// Whether the root is a lobby.
    pub lobby: bool,
    /// The paths of the writable points.
    pub points: Fixed<Text>,
    /// The path of each history, with that of its source, if it has one.
    pub histories: Fixed<(Text, Option<Text>)>,
    /// The path of the alarm subject.
    pub subject: Option<Text>,
    /// The rules of the alarm subject, in its order.
    pub rules: Fixed<PointRule>,
    /// The texts of the About object that the site replaces, each behind its name.
    pub about: Fixed<(Text, Text)>,
}

impl Drop for Plan {
    // By one call for each part, so that to drop it is one call to whoever may have to.
    fn drop(self) {
        let Plan {
            base,
            root,
            boot: _,
            lobby: _,
            points,
            histories,
            subject,
            rules,
            about,
        } = self;
        drop(base);
        drop(root);
        drop(points);
        drop(histories);
        drop(subject);
        drop(rules);
        drop(about);
    }
}
