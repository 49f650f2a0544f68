//! Which of several pending calls goes first.
ghost use Rattle.std.specs.Prelude.{◌≡◌, ◌<◌, true, false};
ghost use Rattle.ux_session.specs.Sessions.{is_asked};

use rand_core::utils::NextWord;
use rand_pcg::Pcg32;

/// Which of the generator's sequences is drawn from.
const STREAM: u64 = 1;

/// Which of several pending calls that needn't wait goes first.
#[derive(Drop)]
pub(crate) enum Order {
    /// That which was asked for first.
    Asked,
    /// That which is found first from a place on that is drawn.
    Drawn(Pcg32),
}

impl Order {
    /// The order that this seed stands for.
    pub(crate) fn of_seed(seed: u64) -> Order
        ensures { is_asked result ≡ false }
    {
        Order::Drawn(Pcg32::new(seed, STREAM))
    }

    /// The place, among so many, from which on it is looked for the next.
    pub(crate) fn start(&mut self, count: usize) -> usize
        requires { 0 < count }
        ensures within { result < count }
        ensures first { is_asked self.old ≡ true → result ≡ 0 }
        ensures same { is_asked self.new ≡ is_asked self.old }
    {
        match self {
            Order::Asked => 0,
            Order::Drawn(generator) => generator.next_word() as usize % count,
        }
    }
}
