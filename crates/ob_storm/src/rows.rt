//! Draws and requests, worked by computing.
ghost use Rattle.ob_storm.specs.Rows.{FirstDraw, FirstRequest, Writes, PollsChanges, PollsRefresh, Acknowledges, WatchesRound, BeginsInOrder, SixLines};

/// Draws, requests and lines as the rules say: those of `specs/Rows.antt`.
pub fn worked_rows()
    ensures first_draw { FirstDraw }
    ensures first_request { FirstRequest }
    ensures writes { Writes }
    ensures polls_changes { PollsChanges }
    ensures polls_refresh { PollsRefresh }
    ensures acknowledges { Acknowledges }
    ensures watches_round { WatchesRound }
    ensures begins_in_order { BeginsInOrder }
    ensures six_lines { SixLines }
{}
