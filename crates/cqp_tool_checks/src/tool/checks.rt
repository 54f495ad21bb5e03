//! Whole calls of `check` on texts: verdicts, faults of scope, nodes that fail, and limits. `run`
//! refuses the same texts alike.

use crate::tool::{repeated, tells};
use cqp_tool::Status;
use std::alloc::Global;
use std::process::Abort;
use std::test::Fail;

/// Asserts that `check` and `run` refuse these texts with a status, each with its line.
fn refuse(
    rt: &impl Abort,
    alloc: Global,
    status: Status,
    cases: &[(&str, &str)],
) -> Result<(), Fail> {
    for (text, line) in cases {
        tells(rt, alloc, "check", text.as_bytes(), status, line)?;
        tells(rt, alloc, "run", text.as_bytes(), status, line)?;
    }
    Ok(())
}

#[test]
fn verdicts_tell_need_and_size(rt: HostRuntime) -> Result<(), Fail> {
    let cases = [
        ("0", "accepted qubits 0 size 0\n"),
        ("(qbit x){x}.0", "accepted qubits 1 size 2\n"),
        (
            "def Alice(x:Qbit,z:Qbit,c:^[Int])={z,x *= CNot}.{z *= H}.c![measure z,x].0;\
             def Bob(y:Qbit,c:^[Int])=c?[r:Int].{y *= sig(r)}.0;\
             (qbit z)(qbit x)(qbit y)(new c:^[Int])\
             {x *= H}.{x,y *= CNot}.(Alice(x,z,c)|Bob(y,c))",
            "accepted qubits 3 size 18\n",
        ),
        // A qubit may be used by one action after the other.
        (
            "(qbit x){x *= H}.{x *= X}.{measure x}.0",
            "accepted qubits 1 size 7\n",
        ),
    ];
    for (text, line) in cases {
        tells(
            &rt,
            rt.alloc(),
            "check",
            text.as_bytes(),
            Status::Done,
            line,
        )?;
    }
    Ok(())
}

#[test]
fn faults_of_scope_are_told(rt: HostRuntime) -> Result<(), Fail> {
    let cases = [
        ("{y *= H}.0", "unbound name at 1\n"),
        ("(qbit x){y *= H}.0", "unbound name at 9\n"),
        ("{x *= H}.(qbit x)0", "unbound name at 1\n"),
        ("(qbit xy){x *= H}.0", "unbound name at 10\n"),
        ("A()", "unknown definition at 0\n"),
        ("def A()=0;A(x)", "wrong number of arguments at 10\n"),
        ("def A()=0;def A()=0;0", "name twice at 14\n"),
        ("def A(x:Int)=0;(qbit y)A(y)", "wrong argument type at 25\n"),
    ];
    refuse(&rt, rt.alloc(), Status::TextRefused, &cases)
}

#[test]
fn nodes_that_fail_are_told(rt: HostRuntime) -> Result<(), Fail> {
    let cases = [
        ("(qbit x){x *= 1 + 1}.0", "type Mismatch at 9\n"),
        ("(qbit x){x *= (x *= H)}.0", "type Mismatch at 9\n"),
        ("(new c:Int)0", "type NotChannel at 0\n"),
        ("(qbit x)x?[].0", "type NotChannel at 8\n"),
        ("(qbit x)(qbit y){x,y *= H}.0", "type Count at 17\n"),
        ("(new c:^[Int])c![].0", "type Count at 14\n"),
        ("(qbit x){measure x,x}.0", "type OperandTwice at 9\n"),
        (
            "(qbit x)({x *= H}.0 | {x *= X}.0)",
            "type SplitTwice at 20\n",
        ),
        (
            "(qbit x)(new c:^[Qbit])(c![x].{measure x}.0 | c?[y:Qbit].0)",
            "type SentAndUsed at 24\n",
        ),
    ];
    refuse(&rt, rt.alloc(), Status::TypeRefused, &cases)
}

#[test]
fn qubits_and_nodes_have_limits(rt: HostRuntime) -> Result<(), Fail> {
    let alloc = rt.alloc();
    let need = "limit qubits 12 needs 13\n";
    let cases = [
        (
            "(qbit a)",
            12,
            "0",
            Status::Done,
            "accepted qubits 12 size 12\n",
        ),
        ("(qbit a)", 13, "0", Status::LimitRefused, need),
        ("0|", 9999, "0", Status::Done, "accepted qubits 0 size 0\n"),
        (
            "0|",
            10000,
            "0",
            Status::LimitRefused,
            "limit nodes 20000\n",
        ),
        // A node that fails is told before the qubits are counted.
        (
            "(qbit a)",
            13,
            "{1 + a}.0",
            Status::TypeRefused,
            "type Mismatch at 107\n",
        ),
    ];
    for (text, count, last, status, line) in cases {
        let bytes = repeated(alloc, "", text, count, last)?;
        tells(&rt, alloc, "check", &bytes, status, line)?;
    }
    let mut both = repeated(alloc, "if 0 = 0 then ", "(qbit a)", 12, "0 else ")?;
    both.extend_from_slice(repeated(alloc, "", "(qbit a)", 12, "0")?.as_slice())?;
    let line = "accepted qubits 12 size 25\n";
    tells(&rt, alloc, "check", both.as_slice(), Status::Done, line)
}
