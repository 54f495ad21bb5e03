//! Texts at the limit of depth, and long ones.

use crate::parse::{answer, repeated};
use cqp_parse::NoMemory;
use std::alloc::Global;
use std::test::Fail;

#[test]
fn depth_counts_open_brackets(rt: HostRuntime) -> Result<(), Fail> {
    let alloc = rt.alloc();
    let cases: [(&[u8], usize, &[u8], &[u8]); 8] = [
        (b"(", 101, b"", b"deep at 100"),
        (b"(", 100, b"", b"refused at 100"),
        (b"(", 100, b")", b"refused at 100"),
        (b"(", 100, b"[", b"refused at 100"),
        (b"(", 100, b"A(", b"deep at 101"),
        (b"(", 99, b"c![(", b"deep at 102"),
        (b"(", 101, b"?", b"deep at 100"),
        (b"f()|", 200, b"0 0", b"refused at 802"),
    ];
    for (text, count, last, wanted) in cases {
        let bytes = repeated(alloc, text, count, last)?;
        let given = answer(alloc, bytes.as_slice())?;
        assert_eq!(rt; given.as_slice(), wanted);
    }
    Ok(())
}

/// A text, another so many times, and two behind them.
fn chain(
    alloc: Global,
    first: &[u8],
    link: &[u8],
    count: usize,
    last: &[u8],
) -> Result<Vec<u8>, NoMemory> {
    let mut bytes = Vec::from_slice(alloc, first)?;
    let links = repeated(alloc, link, count, last)?;
    bytes.extend_from_slice(links.as_slice())?;
    Ok(bytes)
}

#[test]
fn long_chains_are_read(rt: HostRuntime) -> Result<(), Fail> {
    let alloc = rt.alloc();
    let branches = repeated(alloc, b"if 0=0 then ", 5_000, b"0")?;
    let cases: [(&[u8], &[u8], usize, &[u8]); 5] = [
        (b"", b"0|", 20_000, b"0"),
        (b"", b"{1}.", 9_000, b"0"),
        (b"", b"(qbit x)", 9_000, b"0"),
        (b"{", b"1+", 9_000, b"1}.0"),
        (branches.as_slice(), b" else 0", 5_000, b""),
    ];
    for (first, link, count, last) in cases {
        let bytes = chain(alloc, first, link, count, last)?;
        let given = answer(alloc, bytes.as_slice())?;
        assert_eq!(rt; given.as_slice(), bytes.as_slice());
    }
    Ok(())
}
