//! Programs of many nodes, of many definitions, and of many calls.

use cqp_expand::{ExpandEnd, expand};
use cqp_parse::{NoMemory, parse};
use std::alloc::Global;
use std::test::Fail;

/// How many nodes the process of a text of fewer than 1,000,000 bytes counts, or why there is none.
fn counted(alloc: Global, text: &[u8]) -> Result<String, NoMemory> {
    if text.len() >= 1_000_000 {
        return format!(in alloc; "long");
    }
    let Ok(program) = parse(alloc, text) else {
        return format!(in alloc; "not read");
    };
    match expand(alloc, &program) {
        Ok(process) => {
            let nodes = process.nodes();
            format!(in alloc; "{nodes}")
        }
        Err(ExpandEnd::Large) => format!(in alloc; "large"),
        Err(_) => format!(in alloc; "another end"),
    }
}

/// A definition of nothing, behind it so many that each call the one before, once or twice, and a
/// call of the last.
fn definitions(alloc: Global, count: u32, twice: bool) -> Result<String, NoMemory> {
    let mut text = format!(in alloc; "def A0()=0;")?;
    for before in 0..count {
        let call = format!(in alloc; "A{before}()")?;
        let body = match twice {
            true => format!(in alloc; "{call}|{call}")?,
            false => call,
        };
        let name = u64::from(before) + 1;
        text.push_str(format!(in alloc; "def A{name}()={body};")?.as_str())?;
    }
    text.push_str(format!(in alloc; "A{count}()")?.as_str())?;
    Ok(text)
}

#[test]
fn calls_that_double_are_counted(rt: HostRuntime) -> Result<(), Fail> {
    let alloc = rt.alloc();
    // The k-th counts as twice the one before and a node: 2^(k + 1) - 1.
    for (count, wanted) in [
        (0, "1"),
        (1, "3"),
        (13, "16383"),
        (14, "large"),
        (64, "large"),
    ] {
        let text = definitions(alloc, count, true)?;
        let given = counted(alloc, text.as_bytes())?;
        assert_eq!(rt; given.as_str(), wanted);
    }
    Ok(())
}

#[test]
fn calls_in_a_chain_add_no_node(rt: HostRuntime) -> Result<(), Fail> {
    let alloc = rt.alloc();
    let text = definitions(alloc, 4_000, false)?;
    let given = counted(alloc, text.as_bytes())?;
    assert_eq!(rt; given.as_str(), "1");
    Ok(())
}

#[test]
fn the_limit_is_20_000_nodes(rt: HostRuntime) -> Result<(), Fail> {
    let alloc = rt.alloc();
    // Two nodes in each of 9,999 actions, one at the end, and one in each binder.
    for (binders, wanted) in [
        ("", "19999"),
        ("(qbit x)", "20000"),
        ("(qbit x)(qbit x)", "large"),
    ] {
        let mut text = format!(in alloc; "{binders}")?;
        for _ in 0..9_999 {
            text.push_str("{1}.")?;
        }
        text.push_str("0")?;
        let given = counted(alloc, text.as_bytes())?;
        assert_eq!(rt; given.as_str(), wanted);
    }
    Ok(())
}

#[test]
fn names_in_lists_count(rt: HostRuntime) -> Result<(), Fail> {
    let alloc = rt.alloc();
    // Six nodes, and the two operands; an input of two names and `0`.
    for (text, wanted) in [
        ("(qbit x)(qbit y){x,y *= CNot}.0", "8"),
        ("(new c:^[Int,Int])c?[x:Int,y:Int].0", "5"),
        ("(qbit x){measure x}.0", "5"),
    ] {
        let given = counted(alloc, text.as_bytes())?;
        assert_eq!(rt; given.as_str(), wanted);
    }
    Ok(())
}
