//! Choosers by a seed. Contracts see the turn's word, which the seed and the turn determine.

ghost use Rattle.std.specs.Prelude.{◌≡◌, ◌<◌, length};
ghost use Rattle.cqp_choose.specs.Odds.{IsLawful};
ghost use Rattle.cqp_choose.specs.Picks.{seed_index};
ghost use Rattle.cqp_choose.specs.Word as word;

use cqp_ring::Root;
use rand_core::SeedableRng;
use rand_core::utils::NextWord;
use rand_pcg::Lcg64Xsh32;

/// The word of a turn: the generator of the seed is moved on by as many words as turns went before.
pub fn turn_word(seed: u64, turn: u64) -> u32
    ensures { result ≡ word.turn_word seed turn }
{
    let mut generator = Lcg64Xsh32::seed_from_u64(seed);
    generator.advance(turn);
    generator.next_word()
}

/// The turn's word modulo the count of the odds.
pub fn seed_pick(seed: u64, turn: u64, odds: &[Root]) -> u64
    requires { IsLawful odds.now }
    ensures index { result ≡ seed_index seed turn odds.now }
    ensures below { result < length odds.now }
{
    u64::from(turn_word(seed, turn)) % odds.len() as u64
}
