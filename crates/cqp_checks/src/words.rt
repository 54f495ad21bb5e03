//! Words that ask for something, command by command, and words that are refused.

use cqp_words::{Choice, Request, Watched, WordsEnd, asks_once, read_words};

#[test]
fn commands_without_further_words(rt: HostRuntime) {
    let a = rt.alloc();
    assert!(rt; matches!(read_words(a, &["check"]), Ok(Request::Check)));
    assert!(rt; matches!(read_words(a, &["replay"]), Ok(Request::Replay)));
    assert!(rt; matches!(read_words(a, &["upgrade"]), Ok(Request::Upgrade)));
    assert!(rt; matches!(read_words(a, &["bundle"]), Ok(Request::Bundle)));
    asks_once();
}

#[test]
fn numbers_are_generated_with_workers(rt: HostRuntime) {
    for (words, wanted) in [
        (["gen", "60", "--workers", "8"].as_slice(), (60, 8)),
        (["gen", "--workers=8", "60"].as_slice(), (60, 8)),
        (["gen", "--workers", "16", "100"].as_slice(), (100, 16)),
        (["gen", "1"].as_slice(), (1, 0)),
    ] {
        let Ok(Request::Gen { number, workers }) = read_words(rt.alloc(), words) else {
            panic!(rt; "nothing is generated")
        };
        assert_eq!(rt; (number, workers), wanted);
    }
}

#[test]
fn a_script_is_read_number_by_number(rt: HostRuntime) {
    for (words, wanted) in [
        (["run"].as_slice(), [0].as_slice()),
        (
            ["run", "--script", "1,0,4294967295"].as_slice(),
            [1, 0, 4294967295].as_slice(),
        ),
        (
            ["run", "--script=7", "--workers", "0"].as_slice(),
            [7].as_slice(),
        ),
    ] {
        let Ok(Request::Run { workers: 0, choice }) = read_words(rt.alloc(), words) else {
            panic!(rt; "nothing is run")
        };
        let Choice::Script { numbers } = choice else {
            panic!(rt; "no script chooses")
        };
        assert!(rt; numbers.as_slice() == wanted);
    }
}

#[test]
fn seeds_are_below_2_to_the_64(rt: HostRuntime) {
    let most = 18446744073709551615;
    let words = ["run", "--seed=18446744073709551615", "--workers", "16"];
    let Ok(
        Request::Run {
            workers: 16,
            choice,
        },
    ) = read_words(rt.alloc(), &words)
    else {
        panic!(rt; "nothing is run")
    };
    assert!(rt; matches!(choice, Choice::Seed { seed } if seed == most));
    let Ok(Request::State { choice }) = read_words(rt.alloc(), &["state", "--born=7"]) else {
        panic!(rt; "no states are shown")
    };
    assert!(rt; matches!(choice, Choice::Born { seed: 7 }));
}

#[test]
fn rules_are_read_item_by_item(rt: HostRuntime) {
    let words = ["watch", "--workers", "4", "--rules", "gate,q0,q11,measure"];
    let Ok(
        Request::Watch {
            rules,
            workers: 4,
            choice,
        },
    ) = read_words(rt.alloc(), &words)
    else {
        panic!(rt; "nothing is watched")
    };
    let [first, last] = [Watched::On { q: 0 }, Watched::On { q: 11 }];
    let wanted = [Watched::Gate, first, last, Watched::Measure];
    assert!(rt; rules.as_slice() == wanted.as_slice());
    assert!(rt; matches!(choice, Choice::Script { numbers: _ }));
    let words = ["watch", "--rules=qbit,new,act,add,pick,com,if"];
    let Ok(Request::Watch { rules, .. }) = read_words(rt.alloc(), &words) else {
        panic!(rt; "nothing is watched")
    };
    assert_eq!(rt; rules.as_slice().len(), 7);
}

#[test]
fn other_words_are_refused(rt: HostRuntime) {
    let refused: [&[&str]; 38] = [
        &[],
        &[""],
        &["help"],
        &["--help"],
        &["--version"],
        &["-h"],
        &["--", "check"],
        &["check", "--"],
        &["--workers", "2", "run"],
        &["check", "--workers", "2"],
        &["check", "more"],
        &["run", "more"],
        &["run", "--workers", "17"],
        &["run", "--workers="],
        &["run", "--workers"],
        &["run", "--workers", "--seed=1"],
        &["run", "--workers", "1", "--workers", "1"],
        &["run", "--seed", "1", "--born", "1"],
        &["run", "--script", "1,"],
        &["run", "--script", "01"],
        &["run", "--script", "4294967296"],
        &["run", "--seed", "18446744073709551616"],
        &["run", "--seed", "+1"],
        &["run", "--seed", "07"],
        &["gen"],
        &["gen", "101"],
        &["gen", "1", "--seed=1"],
        &["check", "--rules", "gate"],
        &["run", "--rules", "gate"],
        &["gen", "1", "--rules", "gate"],
        &["state", "--workers", "1"],
        &["bundle", "more"],
        &["watch"],
        &["watch", "--rules", "q12"],
        &["watch", "--rules", "q01"],
        &["watch", "--rules="],
        &["watch", "--rules", "if,"],
        &[
            "watch",
            "--rules=if,if,if,if,if,if,if,if,if,if,if,if,if,if,if,if,if",
        ],
    ];
    for words in refused {
        assert!(rt; matches!(read_words(rt.alloc(), words), Err(WordsEnd::Usage)));
    }
}
