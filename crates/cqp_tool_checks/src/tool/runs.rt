//! Whole calls of `run` on texts of more than one line: choosers, parts, sums, and a run that stops.

use crate::tool::{repeated, serve};
use cqp_tool::Status;
use std::alloc::Global;
use std::process::Abort;
use std::test::Fail;

/// Alice sends the qubit `z` to Bob, whose qubit is `y`.
const TELEPORTATION: &str = "def Alice(x:Qbit, z:Qbit, c:^[Int]) = \
    {z,x *= CNot}.{z *= H}.c![measure z,x].0;\n\
    def Bob(y:Qbit, c:^[Int]) = c?[r:Int].{y *= sig(r)}.0;\n\
    (qbit z)(qbit x)(qbit y)(new c:^[Int])\n\
    {x *= H}.{x,y *= CNot}.(Alice(x,z,c) | Bob(y,c))\n";

/// Asserts that words on a text end with `Done` and write the text of this trace.
fn runs(
    rt: &impl Abort,
    alloc: Global,
    words: &[&str],
    text: &str,
    trace: &str,
) -> Result<(), Fail> {
    let (status, output) = serve(alloc, words, text.as_bytes(), &[], &[])?;
    assert_eq!(rt; status, Status::Done, "{text}");
    assert_eq!(rt; output.as_slice(), trace.as_bytes(), "{text}");
    Ok(())
}

#[test]
fn teleportation_by_a_script(rt: HostRuntime) -> Result<(), Fail> {
    let trace =
        "trace 2\n0 qbit 0\n0 qbit 1\n0 qbit 2\n0 new 0\n0 gate H 1\n0 act\n0 gate CNot 1 2\n\
        0 act\n0 gate CNot 0 1\n0 act\n0 gate H 0\n0 act\n0 measure 0 1 = 3\n0 com 1 on 0\n\
        1 pick Y\n1 gate Y 2\n1 act\nend done 0\nweight (1+0r)/2^2\n";
    let words = ["run", "--script", "3"];
    runs(&rt, rt.alloc(), &words, TELEPORTATION, trace)
}

#[test]
fn outcomes_are_chosen(rt: HostRuntime) -> Result<(), Fail> {
    let text = "(qbit x){x *= H}.{measure x}.0";
    let zero = "trace 2\n0 qbit 0\n0 gate H 0\n0 act\n0 measure 0 = 0\n0 act\nend done 0\n\
        weight (1+0r)/2^1\n";
    let one = "trace 2\n0 qbit 0\n0 gate H 0\n0 act\n0 measure 0 = 1\n0 act\nend done 0\n\
        weight (1+0r)/2^1\n";
    let cases: [(&[&str], &str); 4] = [
        (&["run"], zero),
        (&["run", "--script", "1"], one),
        (&["run", "--script=4,1"], zero),
        (&["run", "--script", "5", "--workers", "0"], one),
    ];
    for (words, trace) in cases {
        runs(&rt, rt.alloc(), words, text, trace)?;
    }
    Ok(())
}

/// The words of the turns of seed 7 were computed elsewhere: 2442223337, 414063806, 2743600285 and
/// 3524868804. The first and the third are odd, and all but the second fall in the upper half.
#[test]
fn words_of_a_seed_choose(rt: HostRuntime) -> Result<(), Fail> {
    let alloc = rt.alloc();
    let text = repeated(alloc, "(qbit x)", "{x *= H}.{measure x}.", 4, "0")?;
    for (option, outcomes) in [("--seed=7", [1, 0, 1, 0]), ("--born=7", [1, 0, 1, 1])] {
        let mut trace = String::from_str(alloc, "trace 2\n0 qbit 0\n")?;
        for m in outcomes {
            write!(trace, "0 gate H 0\n0 act\n0 measure 0 = {m}\n0 act\n")?;
        }
        write!(trace, "end done 0\nweight (1+0r)/2^4\n")?;
        let (status, output) = serve(alloc, &["run", option], &text, &[], &[])?;
        assert_eq!(rt; status, Status::Done, "{option}");
        assert_eq!(rt; output.as_slice(), trace.as_bytes(), "{option}");
    }
    Ok(())
}

#[test]
fn parts_and_values_are_run(rt: HostRuntime) -> Result<(), Fail> {
    let cases = [
        (
            "(new c:^[Int])c![7].0",
            "trace 2\n0 new 0\nend done 1\nweight (1+0r)/2^0\n",
        ),
        (
            "(new c:^[Int])(c![1].0 | c![2].0 | c?[x:Int].0)",
            "trace 2\n0 new 0\n0 com 2 on 0\nend done 1\nweight (1+0r)/2^0\n",
        ),
        (
            "(new c:^[Int])(c![4294967295 + 1].0 | c?[r:Int].(qbit x){x *= sig(r + 7)}.0)",
            "trace 2\n0 new 0\n0 add 0\n0 com 1 on 0\n1 qbit 0\n1 add 7\n1 pick Y\n1 gate Y 0\n\
                1 act\nend done 0\nweight (1+0r)/2^0\n",
        ),
        (
            "if 1 = 1 then 0 else 0",
            "trace 2\n0 if yes\nend done 0\nweight (1+0r)/2^0\n",
        ),
    ];
    for (text, trace) in cases {
        runs(&rt, rt.alloc(), &["run"], text, trace)?;
    }
    Ok(())
}

#[test]
fn a_run_stops_before_an_h_at_the_limit(rt: HostRuntime) -> Result<(), Fail> {
    let alloc = rt.alloc();
    let text = repeated(alloc, "(qbit x)", "{x *= H}.{x *= T}.", 178, "{x *= H}.0")?;
    let entries = "0 gate H 0\n0 act\n0 gate T 0\n0 act\n";
    let end = "end stopped 0\nweight (1+0r)/2^0\n";
    let wanted = repeated(alloc, "trace 2\n0 qbit 0\n", entries, 178, end)?;
    let (status, output) = serve(alloc, &["run"], &text, &[], &[])?;
    assert_eq!(rt; status, Status::Stopped);
    assert_eq!(rt; output.as_slice(), wanted.as_slice());
    Ok(())
}
