//! The rules that histories and alarm subjects of a site file keep.
ghost use Rattle.std.specs.Prelude.{◌≡◌};
ghost use Rattle.ob_site_rules.specs.RuleWords.{rule_word};

/// Which rule of the roles a part of a site file breaks.
///
/// Source: oBIX 1.1, chapters 13 (History) and 15 (Alarming); how a site file says first records and rules of alarms is this
/// profile's own. Which rule is told of a part that breaks several is in `specs/Loading.antt`.
#[derive(Clone, Copy, PartialEq, Eq, Debug)]
pub enum SiteRule {
    /// Each item of `data` and of `rules` is an obj.
    Kind,
    /// A record has an abstime `timestamp` with a value.
    Timestamp,
    /// A record has a child `value` of a kind that has values.
    Value,
    /// No record is earlier than the one before it.
    Order,
    /// No record is later than the year 9999.
    Late,
    /// The `source` of a history names a node with a value, and that of an alarm's rule an int or a real; both outside
    /// `contracts`.
    Source,
    /// A `capacity` is an int from 1 to 1,000,000.
    Capacity,
    /// All histories together keep at most 1,000,000 records.
    Total,
    /// An alarm's rule has a `low` of the kind of its source, with a value.
    Low,
    /// An alarm's rule has a `high` of the kind of its source, with a value.
    High,
    /// `low` isn't above `high`.
    Bounds,
    /// An alarm's rule has a bool `needsAck` with a value.
    NeedsAck,
    /// No two rules of alarms have one source.
    SourceTwice,
    /// There is one alarm subject at most.
    SecondSubject,
}

impl SiteRule {
    /// The rule in a word or two, as `source` or `source twice`.
    pub fn word(self) -> &'static str
        ensures { result.now ≡ rule_word self }
    {
        match self {
            SiteRule::Kind => "kind",
            SiteRule::Timestamp => "timestamp",
            SiteRule::Value => "value",
            SiteRule::Order => "order",
            SiteRule::Late => "late",
            SiteRule::Source => "source",
            SiteRule::Capacity => "capacity",
            SiteRule::Total => "total",
            SiteRule::Low => "low",
            SiteRule::High => "high",
            SiteRule::Bounds => "bounds",
            SiteRule::NeedsAck => "needsAck",
            SiteRule::SourceTwice => "source twice",
            SiteRule::SecondSubject => "second subject",
        }
    }
}
