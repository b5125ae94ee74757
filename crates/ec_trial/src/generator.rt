//! The generator of numbers.
ghost use Rattle.std.specs.Prelude.{◌≡◌, ◌<◌};
ghost use Rattle.ec_trial.specs.Draws.{answer, next_state};

/// What each state is multiplied by, and what is added to it, for the next one. Both numbers are those of the quick generator in
/// Numerical Recipes in C (Press, Teukolsky, Vetterling, Flannery, 1992, section 7.1).
const MULTIPLIER: u64 = 1_664_525;

const INCREMENT: u64 = 1_013_904_223;

/// A generator of numbers, by its state. It begins with the number that all is drawn from.
#[derive(Drop)]
pub(crate) struct Generator {
    pub state: u32,
}

impl Generator {
    /// One of `count` numbers from 0.
    #[tactic(auto, unfolding(crate::specs::Draws::next_state, crate::specs::Draws::answer))]
    pub fn draw(&mut self, count: u32) -> u32
        requires { 0 < count }
        ensures state { self.new.state ≡ next_state self.old.state }
        ensures drawn { result ≡ answer count self.new.state }
        ensures below { result < count }
    {
        let next = (u64::from(self.state) * MULTIPLIER + INCREMENT) % (1 << 32);
        self.state = next as u32;
        self.state / 65_536 % count
    }
}
