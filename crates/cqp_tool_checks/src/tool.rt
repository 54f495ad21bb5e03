//! Whole calls over sources and sinks in memory: words, faults and statuses.

mod checks;
mod replays;
mod runs;
mod texts;

use cqp_outside::{Bytes, MemSink, MemSource, Numbers};
use cqp_tool::{Status, plain_main};
use std::alloc::Global;
use std::process::Abort;
use std::test::Fail;

/// What a call writes, and its status.
pub(crate) type Answer = (Status, Vec<u8>);

/// Serves the words on an input, with a source and a sink that fail at these calls.
pub(crate) fn serve(
    alloc: Global,
    words: &[&str],
    input: &[u8],
    read_fails: &[u64],
    write_fails: &[u64],
) -> Result<Answer, Fail> {
    let bytes = Bytes::from_vec(input.to_vec(alloc)?);
    let fails = Numbers::from_vec(read_fails.to_vec(alloc)?);
    let mut source = MemSource::new(bytes, 7, fails);
    let fails = Numbers::from_vec(write_fails.to_vec(alloc)?);
    let mut sink = MemSink::new(alloc, 200_000, 4, fails)?;
    let status = plain_main(alloc, words, &mut source, &mut sink);
    Ok((status, sink.bytes().to_vec(alloc)?))
}

/// A text so many times, and another behind it.
pub(crate) fn repeated(
    alloc: Global,
    first: &str,
    text: &str,
    count: usize,
    last: &str,
) -> Result<Vec<u8>, Fail> {
    let mut bytes = first.as_bytes().to_vec(alloc)?;
    for _ in 0..count {
        bytes.extend_from_slice(text.as_bytes())?;
    }
    bytes.extend_from_slice(last.as_bytes())?;
    Ok(bytes)
}

/// Asserts that a command on a text ends with a status, and writes a line.
pub(crate) fn tells(
    rt: &impl Abort,
    alloc: Global,
    command: &str,
    text: &[u8],
    status: Status,
    line: &str,
) -> Result<(), Fail> {
    let (ended, output) = serve(alloc, &[command], text, &[], &[])?;
    assert_eq!(rt; ended, status, "{line}");
    assert_eq!(rt; output.as_slice(), line.as_bytes());
    Ok(())
}

/// Asserts the status and the output of words for which nothing is read.
fn unread(
    rt: &impl Abort,
    alloc: Global,
    words: &[&str],
    wanted: Status,
    line: &str,
) -> Result<(), Fail> {
    // The source fails at its first call, which does not come.
    let (status, output) = serve(alloc, words, b"0", &[0], &[])?;
    assert_eq!(rt; status, wanted);
    assert_eq!(rt; output.as_slice(), line.as_bytes());
    Ok(())
}

#[test]
fn other_words_are_refused_and_read_nothing(rt: HostRuntime) -> Result<(), Fail> {
    let cases: [&[&str]; 10] = [
        &[],
        &["check", "check"],
        &["replay", "0"],
        &["gen", "101"],
        &["run", "run"],
        &["Run"],
        &["run "],
        &["--help"],
        &["run", "--workers", "17"],
        &["run", "--seed", "01"],
    ];
    for words in cases {
        unread(&rt, rt.alloc(), words, Status::Usage, "words refused\n")?;
    }
    Ok(())
}

#[test]
fn what_is_not_served_yet_reads_nothing(rt: HostRuntime) -> Result<(), Fail> {
    let cases: [&[&str]; 6] = [
        &["bundle"],
        &["state"],
        &["gen", "1", "--workers", "2"],
        &["watch", "--rules", "gate"],
        &["run", "--workers", "1"],
        &["run", "--workers", "16", "--seed", "1"],
    ];
    for words in cases {
        unread(&rt, rt.alloc(), words, Status::Unbuilt, "not built\n")?;
    }
    Ok(())
}

#[test]
fn faults_end_the_call(rt: HostRuntime) -> Result<(), Fail> {
    let empty = b"".as_slice();
    let cases: [(&[u64], &[u64], Status, &[u8]); 5] = [
        (&[0], &[], Status::ReadFault, empty),
        (&[1], &[], Status::ReadFault, empty),
        (&[], &[0], Status::WriteFault, empty),
        (&[], &[1], Status::WriteFault, b"trac"),
        (
            &[],
            &[9],
            Status::WriteFault,
            b"trace 2\nend done 0\nweight (1+0r)/2^0",
        ),
    ];
    for (read_fails, write_fails, wanted, written) in cases {
        let (status, output) = serve(rt.alloc(), &["run"], b"0", read_fails, write_fails)?;
        assert_eq!(rt; status, wanted);
        assert_eq!(rt; output.as_slice(), written);
    }
    Ok(())
}

#[test]
fn statuses_have_their_numbers(rt: HostRuntime) {
    let cases = [
        (Status::Done, 0),
        (Status::Usage, 1),
        (Status::TextRefused, 2),
        (Status::TypeRefused, 3),
        (Status::LimitRefused, 4),
        (Status::ReadFault, 5),
        (Status::WriteFault, 6),
        (Status::NoMemory, 7),
        (Status::Stopped, 8),
        (Status::TraceRefused, 9),
        (Status::Unbuilt, 10),
    ];
    for (status, number) in cases {
        assert_eq!(rt; status.number(), number);
    }
}
