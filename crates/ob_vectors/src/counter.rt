//! A sum behind a desk.
use ob_times::Moment;
use ob_turn::Machine;
use std::alloc::AllocError;
use std::marker::Model;

/// A sum, which is told as it grows.
#[derive(Drop)]
pub(crate) struct Counter {
    pub(crate) sum: u64,
}

/// The number that is added.
#[derive(Drop)]
pub(crate) struct Add(pub(crate) u64);

impl Machine for Counter {
    ghost use Rattle.std.specs.Prelude.{◌+◌, ◌-◌, ◌^◌, min};

    type Request = Add;

    type Reply = u64;

    ghost act = { λ s request moment. (record { sum = min (s.sum + request.0) (2 ^ 64 - 1) }, min (s.sum + request.0) (2 ^ 64 - 1)) };

    fn step(&mut self, request: &Add, _moment: Moment) -> Result<u64, AllocError> {
        self.sum = self.sum.saturating_add(request.0);
        Ok(self.sum)
    }
}
