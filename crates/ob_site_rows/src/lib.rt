//! Requests worked on small sites, before and behind a restart, and documents that are opened, by computing the definitions.
//!
//! No other crate stands on this one.
#![tactic(auto)]

ghost use Rattle.ob_site_rows.specs.Openings.{PlantOpens, RollingOpens, NoRoot, OnePathTwice, PathComputed, OtherOrigin, LaterContract, ContractTwice, FallingRecord, NoCapacity, FarSource, FullTogether, ContractsHaveNoRole, SecondSubject, LimitsTurned, FirstOfThree, NoRecord, SourceBeforeLimits};
ghost use Rattle.ob_site_rows.specs.RestartRows.{AfterAReplay, AfterARestart, AlarmsStay};
ghost use Rattle.ob_site_rows.specs.Rows.{Plain, Lapses, LobbyEnds, Inherits, Overrides, Batches, Puts, Queries, Records, Alarms, Makes, Polls, Adds, Abouts, Feeds, Refuses, Ops, LeftOut, Watchables, SetBack, AckMarks, Rolls, RollsAtTheEnd, Defaults, DefaultSetBack, EqualDefault, MarksRound, AckMarksRoot, CountMarks};

/// The rows: what requests are answered, one after the other, on the sites of `specs/Worked.antt`, as text.
pub fn worked_rows()
    ensures plain { Plain }
    ensures lapses { Lapses }
    ensures lobby_ends { LobbyEnds }
    ensures inherits { Inherits }
    ensures overrides { Overrides }
    ensures batches { Batches }
    ensures puts { Puts }
    ensures queries { Queries }
    ensures records { Records }
    ensures alarms { Alarms }
    ensures makes { Makes }
    ensures polls { Polls }
    ensures adds { Adds }
    ensures abouts { Abouts }
    ensures feeds { Feeds }
    ensures refuses { Refuses }
    ensures ops { Ops }
    ensures left_out { LeftOut }
    ensures watchables { Watchables }
    ensures set_back { SetBack }
    ensures ack_marks { AckMarks }
    ensures rolls { Rolls }
    ensures rolls_at_the_end { RollsAtTheEnd }
    ensures defaults { Defaults }
    ensures default_set_back { DefaultSetBack }
    ensures equal_default { EqualDefault }
    ensures marks_round { MarksRound }
    ensures ack_marks_root { AckMarksRoot }
    ensures count_marks { CountMarks }
{}

/// What documents open, or what they are refused for: those of `specs/Openings.antt`.
pub fn worked_openings()
    ensures plant_opens { PlantOpens }
    ensures rolling_opens { RollingOpens }
    ensures no_root { NoRoot }
    ensures one_path_twice { OnePathTwice }
    ensures path_computed { PathComputed }
    ensures other_origin { OtherOrigin }
    ensures later_contract { LaterContract }
    ensures contract_twice { ContractTwice }
    ensures falling_record { FallingRecord }
    ensures no_capacity { NoCapacity }
    ensures far_source { FarSource }
    ensures full_together { FullTogether }
    ensures contracts_have_no_role { ContractsHaveNoRole }
    ensures second_subject { SecondSubject }
    ensures limits_turned { LimitsTurned }
    ensures first_of_three { FirstOfThree }
    ensures no_record { NoRecord }
    ensures source_before_limits { SourceBeforeLimits }
{}

/// What requests are answered on a plant before a restart and behind it, computed from the definitions.
pub fn worked_restarts()
    ensures after_a_restart { AfterARestart }
    ensures after_a_replay { AfterAReplay }
    ensures alarms_stay { AlarmsStay }
{}
