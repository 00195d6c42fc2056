//! A clock of given moments.
use ob_io::{Clock, Failed};
use ob_times::Moment;

/// Gives these moments one after the other, and the last one for ever. It never fails, and tells nothing.
#[derive(Drop)]
pub(crate) struct Moments<'a> {
    pub(crate) moments: &'a [Moment],
    pub(crate) place: usize,
    pub(crate) last: Moment,
}

impl Clock for Moments<'_> {
    ghost use Rattle.std.specs.Prelude.{None};

    ghost given = { λ c. None };

    ghost pace = { λ c. None };

    ghost twins = { λ c. None };

    ghost faults = { λ c. 0 };

    ghost paced = { λ c. tt };

    fn now(&mut self) -> Result<Moment, Failed> {
        match self.moments.get(self.place) {
            Some(moment) => {
                self.place = self.place.saturating_add(1);
                Ok(*moment)
            }
            None => Ok(self.last),
        }
    }

    fn twin(&mut self) -> Result<Self, Failed> {
        Ok(Moments {
            moments: self.moments,
            place: self.place,
            last: self.last,
        })
    }

    fn back(&mut self, clock: Self) {
        let Moments { .. } = clock;
    }
}
