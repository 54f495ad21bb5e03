//! Worked values of each pick. The words of turns were computed elsewhere, by the generator's rule.

ghost use Rattle.std.specs.Prelude.{◌≡◌};
ghost use Rattle.cqp_choose.specs.Odds.{IsLawful};
ghost use Rattle.cqp_choose.specs.Picks.{seed_index};

use cqp_choose::{Kept, born_index, born_pick, script_pick, seed_pick, turn_word};
use cqp_ring::Root;

fn halves() -> [Root; 2]
    ensures { IsLawful result }
{
    [Root { p: 2, q: 1 }, Root { p: 2, q: -1 }]
}

fn quarters() -> [Root; 2]
    ensures { IsLawful result }
{
    [Root { p: 1, q: 0 }, Root { p: 3, q: 0 }]
}

fn sure() -> [Root; 1]
    ensures { IsLawful result }
{
    [Root { p: 5, q: 2 }]
}

/// A chooser that may be asked by many threads.
fn shared<T: Sync>(chooser: T) -> T
    ensures { result ≡ chooser }
{
    chooser
}

#[test]
fn words_fall_among_the_odds(rt: HostRuntime) {
    for (word, index) in [(0, 0), (3665983897, 0), (3665983898, 1), (4294967295, 1)] {
        assert_eq!(rt; born_index(word, &halves()), index, "{word}");
    }
    for (word, index) in [(0, 0), (1073741823, 0), (1073741824, 1)] {
        assert_eq!(rt; born_index(word, &quarters()), index, "{word}");
    }
    for word in [0, 4294967295] {
        assert_eq!(rt; born_index(word, &sure()), 0, "{word}");
    }
}

#[test]
fn a_script_answers_to_its_end_and_then_0(rt: HostRuntime) {
    for (turn, index) in [(0, 1), (1, 0), (2, 1), (3, 0), (18446744073709551615, 0)] {
        assert_eq!(rt;
            script_pick(&[1, 2, 4294967295], turn, &halves()),
            index,
            "{turn}"
        );
    }
}

#[test]
fn a_seed_answers_by_the_word_of_the_turn(rt: HostRuntime) {
    for (seed, turn, word, by_seed, by_born) in [
        (7, 0, 2442223337, 1, 1),
        (7, 1, 414063806, 0, 0),
        (7, 2, 2743600285, 1, 1),
        (7, 3, 3524868804, 0, 1),
        (18446744073709551615, 1000, 4190240768, 0, 1),
    ] {
        assert_eq!(rt; turn_word(seed, turn), word, "{seed} {turn}");
        assert_eq!(rt; seed_pick(seed, turn, &halves()), by_seed, "{seed} {turn}");
        assert_eq!(rt;
            born_pick(seed, turn, &quarters()),
            by_born,
            "{seed} {turn}"
        );
    }
}

#[test]
fn a_kept_function_answers_by_what_it_captured(rt: HostRuntime) {
    for (seed, turn, index) in [(7, 1, 0), (7, 2, 1), (18446744073709551615, 1000, 0)] {
        let kept = Kept::new(
            |turn: u64, odds: &[Root]| -> u64
                requires { IsLawful odds.now }
                ensures { result ≡ seed_index seed turn odds.now }
            { seed_pick(seed, turn, odds) },
        );
        assert_eq!(rt;
            shared(kept).choose(turn, &halves()),
            index,
            "{seed} {turn}"
        );
    }
}
