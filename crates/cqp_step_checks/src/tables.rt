//! Where names are used, and the redexes of prefixes.

use crate::processes::{shared_told, sums_told};
use crate::told::Told;
use cqp_syntax::NoMemory;
use std::alloc::Global;
use std::test::Fail;

/// Puts a number last.
fn push(alloc: Global, words: &mut String, number: u32) -> Result<(), NoMemory> {
    words.push_str(format!(in alloc; " {number}")?.as_str())
}

/// Whether a name is free in the process at a node, where both are there.
fn is_free(told: &Told, name: u32, n: u32) -> bool {
    let names = told.proc.names();
    let nodes = told.proc.len();
    name < names && n < nodes && told.uses.is_free(name, n)
}

/// The k-th redex of the prefix at a node, where the node is there.
fn redex(told: &Told, n: u32, k: usize) -> Option<u32> {
    let nodes = told.proc.len();
    if n < nodes {
        told.redexes.redex(n, k)
    } else {
        None
    }
}

/// How many redexes a node has, as an expression, where it is there.
fn count(told: &Told, n: u32) -> u32 {
    let nodes = told.proc.len();
    if n < nodes { told.redexes.count(n) } else { 0 }
}

/// The nodes from the third on at which a name is free.
fn places_of(alloc: Global, told: &Told, name: u32) -> Result<String, NoMemory> {
    let mut words = String::new(alloc);
    for n in 3..told.proc.len() {
        if is_free(told, name, n) {
            push(alloc, &mut words, n)?;
        }
    }
    Ok(words)
}

/// The redexes of the prefix at a node in evaluation order, ten at most.
fn redexes_of(alloc: Global, told: &Told, n: u32) -> Result<String, NoMemory> {
    let mut words = String::new(alloc);
    for k in 0..10 {
        if let Some(redex) = redex(told, n, k) {
            push(alloc, &mut words, redex)?;
        }
    }
    Ok(words)
}

/// How many redexes each node has, as an expression.
fn counts_of(alloc: Global, told: &Told) -> Result<String, NoMemory> {
    let mut words = String::new(alloc);
    for n in 0..told.proc.len() {
        push(alloc, &mut words, count(told, n))?;
    }
    Ok(words)
}

/// Whether these are the redexes of the prefix at a node.
fn are_redexes(alloc: Global, told: &Told, n: u32, wanted: &str) -> Result<bool, NoMemory> {
    let words = redexes_of(alloc, told, n)?;
    Ok(words.as_str() == wanted)
}

/// Whether the nodes have so many redexes.
fn are_counts(alloc: Global, told: &Told, wanted: &str) -> Result<bool, NoMemory> {
    let words = counts_of(alloc, told)?;
    Ok(words.as_str() == wanted)
}

#[test]
fn names_are_free_where_they_are_used_behind(rt: HostRuntime) -> Result<(), Fail> {
    let alloc = rt.alloc();
    let told = shared_told(alloc)?;
    // The channel is used in three inputs and outputs.
    let chan = places_of(alloc, &told, 0)?;
    assert_eq!(rt; chan.as_str(), " 3 4 6 11 13 14");
    // The first qubit is sent, and the second is used behind that.
    let sent = places_of(alloc, &told, 1)?;
    assert_eq!(rt; sent.as_str(), " 3 4 5");
    let kept = places_of(alloc, &told, 2)?;
    assert_eq!(rt; kept.as_str(), " 3 4 6 7 8");
    // What the inputs bind is used nowhere.
    let bound = places_of(alloc, &told, 3)?;
    assert_eq!(rt; bound.as_str(), "");
    Ok(())
}

#[test]
fn redexes_stand_in_evaluation_order(rt: HostRuntime) -> Result<(), Fail> {
    let alloc = rt.alloc();
    let told = sums_told(alloc)?;
    assert!(rt; are_redexes(alloc, &told, 3, " 4")?);
    // Inner ones come before outer ones.
    assert!(rt; are_redexes(alloc, &told, 6, " 9 8 7")?);
    // Arguments and operands come from left to right.
    assert!(rt; are_redexes(alloc, &told, 12, " 13 15 18 14")?);
    Ok(())
}

#[test]
fn redexes_are_counted(rt: HostRuntime) -> Result<(), Fail> {
    let alloc = rt.alloc();
    let told = sums_told(alloc)?;
    let wanted = " 0 0 0 0 1 0 0 3 2 1 0 0 0 1 3 1 0 0 1 0 0 0";
    assert!(rt; are_counts(alloc, &told, wanted)?);
    Ok(())
}
