//! Numbers that are drawn from a seed.
ghost use Rattle.std.specs.Prelude.{◌≡◌, ◌<◌};
ghost use Rattle.rv_gen.specs.Draws.{draw, state_after};

/// A source of numbers that look drawn by chance. Equal states give equal numbers.
#[derive(Clone, Copy)]
pub struct Draws {
    pub state: u64,
}

/// The factor of a step.
const FACTOR: u64 = 6_364_136_223_846_793_005;

/// What a step adds.
const ADDEND: u64 = 1_442_695_040_888_963_407;

impl Draws {
    /// The next number below `limit`, from the upper bits of the next state.
    #[tactic(auto, unfolding(crate::specs::Draws::state_after))]
    pub fn draw(&mut self, limit: u64) -> u64
        requires { 0 < limit }
        ensures number { result ≡ draw self.old.state 1 limit }
        ensures below { result < limit }
        ensures state { self.new.state ≡ state_after self.old.state 1 }
    {
        self.state = self.state.wrapping_mul(FACTOR).wrapping_add(ADDEND);
        (self.state >> 33) % limit
    }
}
