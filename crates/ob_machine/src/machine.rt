ghost use Rattle.std.specs.Prelude.{◌≡◌, ℕ, IfOk, OnErr};

use ob_times::Moment;
use std::alloc::AllocError;

/// A machine that takes one request at a time. Its state is what contracts see of it.
pub trait Machine {
    type Request;

    type Reply: Drop;

    /// What a request at a moment (in milliseconds since 1970) makes of the machine, and its reply.
    ghost act: { Self → Self.Request → ℕ → Self × Self.Reply };

    /// Takes one request. Where memory is wanting, the machine stays as it was.
    fn step(&mut self, request: &Self::Request, moment: Moment) -> Result<Self::Reply, AllocError>
        ensures done { IfOk result (λ reply. act self.old request.now moment ≡ (self.new, reply)) }
        ensures refused { OnErr result (self.new ≡ self.old) };
}
