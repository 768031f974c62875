//! The draws of a workload.
ghost use Rattle.std.specs.Prelude.{◌≡◌};
ghost use Rattle.workload.specs.Draws.{number_from, state_after};

/// What the state is multiplied by at a draw.
const MULTIPLIER: u64 = 6_364_136_223_846_793_005;

/// What is then added to it.
const INCREMENT: u64 = 1_442_695_040_888_963_407;

/// A linear congruential generator: its state, to which a draw gives a new one.
#[derive(Clone, Copy, Debug)]
pub(crate) struct Draws {
    pub(crate) state: u64,
}

impl Draws {
    /// The number of the next draw, which has 31 bits.
    pub(crate) fn next_number(&mut self) -> u32
        ensures number { result ≡ number_from self.old.state }
        ensures state { self.new.state ≡ state_after self.old.state }
    {
        self.state = self.state.wrapping_mul(MULTIPLIER).wrapping_add(INCREMENT);
        (self.state >> 33) as u32
    }
}
