//! Texts that are read and expanded, as tables of the answers.

mod limits;
mod words;

use cqp_expand::{ExpandEnd, expand};
use cqp_parse::{NoMemory, parse};
use std::alloc::Global;
use std::process::Abort;
use std::test::Fail;
use words::process_words;

/// The answer to a text of fewer than 100,000 bytes: the nodes and the types of the names, or why
/// there is no process.
fn answer(alloc: Global, text: &[u8]) -> Result<String, NoMemory> {
    if text.len() >= 100_000 {
        return format!(in alloc; "long");
    }
    let Ok(program) = parse(alloc, text) else {
        return format!(in alloc; "not read");
    };
    match expand(alloc, &program) {
        Ok(process) => process_words(alloc, &process),
        Err(ExpandEnd::Unbound { at }) => format!(in alloc; "unbound {at}"),
        Err(ExpandEnd::UnknownDef { at }) => format!(in alloc; "unknown {at}"),
        Err(ExpandEnd::Arity { at }) => format!(in alloc; "arity {at}"),
        Err(ExpandEnd::Twice { at }) => format!(in alloc; "twice {at}"),
        Err(ExpandEnd::ParamType { at }) => format!(in alloc; "type {at}"),
        Err(ExpandEnd::Large) => format!(in alloc; "large"),
        Err(ExpandEnd::NoMemory) => format!(in alloc; "no memory"),
    }
}

/// Asserts the answers to some texts.
fn tells(rt: &impl Abort, alloc: Global, cases: &[(&str, &str)]) -> Result<(), Fail> {
    for (text, wanted) in cases {
        let given = answer(alloc, text.as_bytes())?;
        assert_eq!(rt; given.as_str(), *wanted, "{text}");
    }
    Ok(())
}

#[test]
fn calls_are_copies_of_bodies(rt: HostRuntime) -> Result<(), Fail> {
    let cases = [
        (
            "def A(x:Qbit)={x *= H}.0;(qbit q)A(q)",
            "qbit 0 1 @25; act 2 4 @14; apply 0 3 @15; H @20; nil @23; : Qbit",
        ),
        // No binder of a copy captures an argument, and each copy has binders of its own.
        (
            "def A(x:Qbit)=(qbit y){x,y *= CNot}.0;(qbit y)(A(y)|A(y))",
            "qbit 0 1 @38; par 2 7 @51; \
             qbit 1 3 @14; act 4 6 @22; apply 0,1 5 @23; CNot @30; nil @36; \
             qbit 2 8 @14; act 9 11 @22; apply 0,2 10 @23; CNot @30; nil @36; : Qbit Qbit Qbit",
        ),
        // Arguments in the other order.
        (
            "def A(x:Qbit,y:Qbit)={x,y *= CNot}.0;(qbit a)(qbit b)A(b,a)",
            "qbit 0 1 @37; qbit 1 2 @45; act 3 5 @21; apply 1,0 4 @22; CNot @29; nil @35; \
             : Qbit Qbit",
        ),
    ];
    let alloc = rt.alloc();
    tells(&rt, alloc, &cases)
}

#[test]
fn a_name_means_its_innermost_binder(rt: HostRuntime) -> Result<(), Fail> {
    let cases = [
        (
            "(qbit x)(qbit x){x *= H}.0",
            "qbit 0 1 @0; qbit 1 2 @8; act 3 5 @16; apply 1 4 @17; H @22; nil @25; : Qbit Qbit",
        ),
        // The inner binder ends at `|`.
        (
            "(qbit x)((qbit x)0|{x *= H}.0)",
            "qbit 0 1 @0; par 2 4 @18; qbit 1 3 @9; nil @17; \
             act 5 7 @19; apply 0 6 @20; H @25; nil @28; : Qbit Qbit",
        ),
        (
            "(new c:^[Int])(c?[x:Int].c![x].0|c![1].0)",
            "new 0 1 @0; par 2 6 @32; in 0 1 3 @15; out 0 4 5 @25; name 1 @28; nil @31; \
             out 0 7 8 @33; 1 @36; nil @39; : ^1 Int",
        ),
        (
            "(qbit x)if measure x = 1 + 2 then {unit}.0 else {x *= sig(1)}.0",
            "qbit 0 1 @0; if 2 3 6 9 @8; measure 0 @11; add 4 5 @25; 1 @23; 2 @27; \
             act 7 8 @34; unit @35; nil @41; \
             act 10 13 @48; apply 0 11 @49; sig 12 @54; 1 @58; nil @62; : Qbit",
        ),
    ];
    let alloc = rt.alloc();
    tells(&rt, alloc, &cases)
}

#[test]
fn each_fault_has_its_offset(rt: HostRuntime) -> Result<(), Fail> {
    let cases = [
        ("{y *= H}.0", "unbound 1"),
        ("def A(x:Qbit)=0;{x *= H}.0", "unbound 17"),
        ("def A(x:Int)=0;A(z)", "unbound 17"),
        ("B()", "unknown 0"),
        ("def A()=A();0", "unknown 8"),
        ("def A()=B();def B()=0;0", "unknown 8"),
        ("def A()=0;A(x)", "arity 10"),
        ("def A(x:Int)=0;A(x,y)", "arity 15"),
        ("def A(x:Int,x:Int)=0;0", "twice 12"),
        ("def A()=0;def A()=0;0", "twice 14"),
        ("def A(c:^[Int])=c?[x:Int,x:Int].0;0", "twice 25"),
        ("def A(x:Int)=0;(qbit y)A(y)", "type 25"),
        ("def A(c:^[Int,^[]])=0;(new d:^[Int,^[Int]])A(d)", "type 45"),
        (
            "def A(c:^[Int,^[]])=0;(new d:^[Int,^[]])A(d)",
            "new 0 1 @22; nil @20; : ^2",
        ),
        // Of two faults the one with the least offset is told, though its kind stands last.
        ("def A(x:Int)=0;(qbit y)(A(y)|B())", "type 26"),
        (
            "def A(c:Int)=0;def B(x:Qbit)={y *= H}.A(x);C()",
            "unbound 30",
        ),
    ];
    let alloc = rt.alloc();
    tells(&rt, alloc, &cases)
}
