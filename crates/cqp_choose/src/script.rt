ghost use Rattle.std.specs.Prelude.{◌≡◌, ◌<◌, length};
ghost use Rattle.cqp_choose.specs.Odds.{IsLawful};
ghost use Rattle.cqp_choose.specs.Picks.{script_index};

use cqp_ring::Root;

/// The script's number at the turn, modulo the count of the odds, or 0 past the script's end.
pub fn script_pick(script: &[u32], turn: u64, odds: &[Root]) -> u64
    requires { IsLawful odds.now }
    ensures index { result ≡ script_index script.now turn odds.now }
    ensures below { result < length odds.now }
{
    match script.get(turn as usize) {
        Some(number) => u64::from(*number) % odds.len() as u64,
        None => 0,
    }
}
