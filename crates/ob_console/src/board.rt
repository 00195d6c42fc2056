//! The last event of each alarm.
ghost use Rattle.std.specs.Prelude.{◌≡◌, ◌==◌, IfOk, OnOk, length, option_map, slice_get};
ghost use Rattle.ob_console.specs.Boards.{Puts, line_at, put_line};
ghost use Rattle.ob_console.specs.Making.{Makes};
ghost use Rattle.ob_console.specs.InHand as in_hand;

use crate::alarm::{Alarm, Named, alarm_of};
use ob_object::Obj;
use ob_values::Text;
use std::alloc::{AllocError, Global};
use std::collections::BTreeMap;
use thiserror::Error;

// The alarms under their hrefs, in the order of their first events.
type Alarms = Vec<(Text, Alarm)>;

// Where the alarm of each href stands: by halving, since the hash of a map has a seed that all know, so a peer could give
// hrefs that all have one hash.
type Places<'a> = BTreeMap<&'a str, usize>;

/// The last event of each alarm, in the order of the alarms' first events.
#[derive(Drop)]
pub struct Board {
    alarms: Alarms,
}

/// Why there is no board.
#[derive(Clone, Copy, Debug, PartialEq, Eq, Error)]
pub enum BoardFault {
    /// The event at this place, from 0, is the first that is no alarm.
    #[error("Shape at {place}")]
    Shape { place: u64 },
    /// There was no memory.
    #[error("Memory")]
    Memory,
}

impl From<AllocError> for BoardFault {
    ghost use Rattle.std.specs.Prelude.{◌≡◌};
    ghost use Rattle.ob_console.specs.declared.board.BoardFault.TheVariants.{Memory};

    ghost from_gives = { λ _ e. e ≡ Memory };

    fn from(_: AllocError) -> BoardFault {
        BoardFault::Memory
    }
}

// Puts an alarm in its place or last.
fn put_alarm<'a>(
    alarms: &mut Alarms,
    places: &mut Places<'a>,
    named: Named<'a>,
) -> Result<(), AllocError>
    requires { in_hand.IsIndex places.old (in_hand.lines_in alarms.old.items) }
    ensures index { OnOk result (in_hand.IsIndex places.new (in_hand.lines_in alarms.new.items)) }
    ensures put { OnOk result (in_hand.lines_in alarms.new.items ≡ put_line (in_hand.line named.entry) (in_hand.lines_in alarms.old.items)) }
{
    let Named { href, alarm } = named;
    let copy = href.copy()?;
    match places.get(href.as_str()).copied() {
        Some(place) => alarms[place] = (copy, alarm),
        None => {
            places.insert(href.as_str(), alarms.len())?;
            alarms.push((copy, alarm))?;
        }
    }
    Ok(())
}

// Puts what an event tells of an alarm in its place or last; false where it is no alarm.
fn put_event<'a>(
    alarms: &mut Alarms,
    places: &mut Places<'a>,
    event: &'a Obj,
) -> Result<bool, AllocError>
    requires { in_hand.IsIndex places.old (in_hand.lines_in alarms.old.items) }
    ensures index { OnOk result (in_hand.IsIndex places.new (in_hand.lines_in alarms.new.items)) }
    ensures puts { IfOk result (λ is. Puts (in_hand.lines_in alarms.old.items) (in_hand.lines_in alarms.new.items) event.now is) }
{
    let Some(named) = alarm_of(event)? else {
        return Ok(false);
    };
    put_alarm(alarms, places, named)?;
    Ok(true)
}

impl Board {
    /// The board of these events. Shape where one of them is no alarm, with the place of the first.
    pub fn of(alloc: Global, events: &[Obj]) -> Result<Board, BoardFault>
        ensures { Makes events.now result }
    {
        let mut alarms = Vec::new(alloc);
        let mut places = BTreeMap::new(alloc);
        let mut place: u64 = 0;
        for event in events {
            if !put_event(&mut alarms, &mut places, event)? {
                return Err(BoardFault::Shape { place });
            }
            place += 1;
        }
        Ok(Board { alarms })
    }

    /// The alarm of an href. Each is looked at, so a caller asks once a board.
    pub fn alarm(&self, href: &str) -> Option<&Alarm>
        ensures { option_map (λ a. in_hand.shown a.now) result ≡ option_map (λ l. l.value) (line_at href.now (in_hand.lines_of self.now)) }
    {
        for line in self.alarms.as_slice() {
            if href == line.0.as_str() {
                return Some(&line.1);
            }
        }
        None
    }

    /// The number of alarms.
    pub fn len(&self) -> usize
        ensures { result ≡ length (in_hand.lines_of self.now) }
    {
        self.alarms.as_slice().len()
    }

    /// Whether there is no alarm.
    pub fn is_empty(&self) -> bool
        ensures { result ≡ (length (in_hand.lines_of self.now) == 0) }
    {
        self.len() == 0
    }

    /// The alarm at a place, from 0.
    pub fn at(&self, place: usize) -> Option<&Alarm>
        ensures { option_map (λ a. in_hand.shown a.now) result ≡ option_map (λ l. l.value) (slice_get (in_hand.lines_of self.now) place) }
    {
        match self.alarms.as_slice().get(place) {
            Some(line) => Some(&line.1),
            None => None,
        }
    }
}
