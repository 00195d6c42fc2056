//! What a seed draws.
ghost use Rattle.std.specs.Prelude.{◌≡◌};
ghost use Rattle.ob_storm.specs.Draws.{next_state, drawn_at};

/// The state of the generator behind this one.
pub(crate) fn next_state(state: u64) -> u64
    ensures { result ≡ next_state state }
{
    state
        .wrapping_mul(6_364_136_223_846_793_005)
        .wrapping_add(1_442_695_040_888_963_407)
}

/// What is drawn at a state: its upper 31 bits.
pub(crate) fn drawn_at(state: u64) -> u64
    ensures { result ≡ drawn_at state }
{
    state / (1 << 33)
}
