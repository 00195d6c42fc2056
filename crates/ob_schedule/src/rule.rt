//! The rules that a file of schedules keeps.
ghost use Rattle.std.specs.Prelude.{◌≡◌};
ghost use Rattle.ob_schedule.specs.RuleWords.{rule_word};

/// Which rule a part of a file of schedules breaks.
#[derive(Clone, Copy, PartialEq, Eq, Debug)]
pub enum ScheduleRule {
    /// The file, each schedule and each entry is an obj.
    Kind,
    /// The file has a str `zone`, a POSIX rule.
    Zone,
    /// The file has a list `schedules` of at most 1,000.
    Schedules,
    /// A schedule has a uri `point` with a text.
    Point,
    /// The text of a `point` is the path of a writable point, as it stands.
    NotWritable,
    /// No point has two schedules.
    PointTwice,
    /// A schedule has a list `entries` of 1 to 100.
    Entries,
    /// An entry has an int `day` from 1 to 7.
    Day,
    /// An entry has a time `at` in whole milliseconds.
    At,
    /// An entry has a `value`.
    Value,
    /// A `value` is of the kind of the point; where the point isn't one, of a kind that has values.
    ValueKind,
    /// A `value` is null, or one that a Put to the point lets through.
    ValueLimits,
    /// No two entries of a schedule have one day and time.
    TimeTwice,
}

impl ScheduleRule {
    /// The rule in a word or two, as `zone` or `not writable`.
    pub fn word(self) -> &'static str
        ensures { result.now ≡ rule_word self }
    {
        match self {
            ScheduleRule::Kind => "kind",
            ScheduleRule::Zone => "zone",
            ScheduleRule::Schedules => "schedules",
            ScheduleRule::Point => "point",
            ScheduleRule::NotWritable => "not writable",
            ScheduleRule::PointTwice => "point twice",
            ScheduleRule::Entries => "entries",
            ScheduleRule::Day => "day",
            ScheduleRule::At => "at",
            ScheduleRule::Value => "value",
            ScheduleRule::ValueKind => "value kind",
            ScheduleRule::ValueLimits => "value limits",
            ScheduleRule::TimeTwice => "time twice",
        }
    }
}
