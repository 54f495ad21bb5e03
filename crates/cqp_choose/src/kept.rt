ghost use Rattle.std.specs.Prelude.{◌≡◌, ◌<◌, length};
ghost use Rattle.cqp_choose.specs.Chooses.{Chooses};
ghost use Rattle.cqp_choose.specs.Odds.{IsLawful};

use cqp_ring::Root;
use std::marker::Model;

/// A chooser: a function that may be asked at any turn and with any lawful odds, and then answers
/// the index of one of them. The calls that make and ask it have this as their condition. Contracts
/// see the function.
#[derive(Drop)]
pub struct Kept<F> {
    pick: F,
}

impl<F> Model for Kept<F> {
    ghost Value = { F };

    ghost view = { λ k. k.pick };
}

impl<F: Fn(u64, &[Root]) -> u64> Kept<F> {
    /// Keeps the function. It takes no memory.
    pub fn new(pick: F) -> Kept<F>
        requires { Chooses (F.pre pick) (F.post pick) }
        ensures { result ≡ pick }
    {
        Kept { pick }
    }

    /// The function's answer, which isn't tested again.
    pub fn choose(&self, turn: u64, odds: &[Root]) -> u64
        requires lawful { IsLawful odds.now }
        requires kept { Chooses (F.pre self.now) (F.post self.now) }
        ensures answer { F.post self.now turn odds.entry result }
        ensures below { result < length odds.now }
    {
        (self.pick)(turn, odds)
    }
}
