//! Choosers by Born's rule: the word, as a share of 2^32, falls among the odds, in their order.

ghost use Rattle.std.specs.Prelude.{◌≡◌, ◌↔◌, ◌<◌, ◌≤◌, ◌^◌, IsTrue, pos, nat_abs, length};
ghost use Rattle.cqp_ring.specs.Root.{root_difference, root_product, root_total, whole_root};
ghost use Rattle.cqp_choose.specs.Odds.{IsLawful};
ghost use Rattle.cqp_choose.specs.Small.{IsSmall, IsWithin};
ghost use Rattle.cqp_choose.specs.Picks.{IsBornIndex, IsShareLess};
ghost use Rattle.cqp_choose.specs.Word.{turn_word as word_at};

use crate::seed::turn_word;
use cqp_ring::{Root, Sign, sign_laws};

/// The first index at which `word * total` is less than `2^32` times the sum of the odds up to it.
/// It is found by signs alone, and overflows nothing. The time grows with the index.
pub fn born_index(word: u32, odds: &[Root]) -> u64
    requires { IsLawful odds.now }
    ensures { IsBornIndex word odds.now result }
{
    sign_laws();
    let total = total_of(odds);
    let mut sum = Root { p: 0, q: 0 };
    for i in 0..odds.len() - 1 {
        sum = sum.add(odds[i]);
        if is_share_less(word, total, sum) {
            return i as u64;
        }
    }
    odds.len() as u64 - 1
}

/// The `born_index` of the turn's word.
pub fn born_pick(seed: u64, turn: u64, odds: &[Root]) -> u64
    requires { IsLawful odds.now }
    ensures { IsBornIndex (word_at seed turn) odds.now result }
{
    born_index(turn_word(seed, turn), odds)
}

// The sum of the odds.
fn total_of(odds: &[Root]) -> Root
    requires { IsLawful odds.now }
    ensures total { result ≡ root_total odds.now }
    ensures small { IsSmall result }
{
    let mut sum = Root { p: 0, q: 0 };
    for odd in odds {
        sum = sum.add(*odd);
    }
    sum
}

// whether `word * total < 2^32 * sum`
fn is_share_less(word: u32, total: Root, sum: Root) -> bool
    requires total { IsSmall total }
    requires sum { IsSmall sum }
    ensures { IsTrue result ↔ IsShareLess word total sum }
{
    matches!(gap(word, total, sum).sign(), Sign::Plus)
}

// `2^32 * sum` less `word * total`
fn gap(word: u32, total: Root, sum: Root) -> Root
    requires total { IsSmall total }
    requires sum { IsSmall sum }
    ensures { result ≡ root_difference
        (root_product (whole_root (pos (2 ^ 32))) sum)
        (root_product (whole_root (pos word)) total) }
{
    let reached = scaled(1 << 32, sum);
    let share = scaled(u64::from(word), total);
    Root {
        p: reached.p - share.p,
        q: reached.q - share.q,
    }
}

// the root so many times
fn scaled(times: u64, root: Root) -> Root
    requires times { times ≤ 2 ^ 32 }
    requires root { IsSmall root }
    ensures value { result ≡ root_product (whole_root (pos times)) root }
    ensures small { IsWithin (2 ^ 122) result }
{
    let times = i128::from(times);
    Root {
        p: times * root.p,
        q: times * root.q,
    }
}
