//! Reads and writes by sources and sinks in memory, against tables.

use cqp_outside::{
    Bytes, Failed, MemSink, MemSource, Numbers, ReadEnd, SureSource, read_all, write_all,
};
use std::test::Fail;

// A text that is longer than what is asked for at once.
const LONG: [u8; 5000] = [b'q'; 5000];

#[test]
fn whole_reads_end_as_the_limit_says(rt: HostRuntime) -> Result<(), Fail> {
    let alloc = rt.alloc();
    let cases = [
        (b"".as_slice(), 0, None),
        (b"q".as_slice(), 0, Some(ReadEnd::TooLong)),
        (b"{x *= H}.0\n".as_slice(), 11, None),
        (b"{x *= H}.0\n".as_slice(), 10, Some(ReadEnd::TooLong)),
        (LONG.as_slice(), 5000, None),
        (LONG.as_slice(), 4999, Some(ReadEnd::TooLong)),
    ];
    for (text, limit, end) in cases {
        for step in [1, 3, 100, 10_000] {
            assert!(rt; 1 <= step && limit <= 5000);
            let bytes = Bytes::from_vec(text.to_vec(alloc)?);
            let mut source = MemSource::new(bytes, step, Numbers::new(alloc));
            match read_all(alloc, &mut source, limit) {
                Ok(read) => {
                    assert_eq!(rt; end, None);
                    assert_eq!(rt; read.as_slice(), text, "by {step}");
                }
                Err(error) => assert_eq!(rt; Some(error), end, "by {step}"),
            }
        }
    }
    Ok(())
}

#[test]
fn a_failing_call_ends_the_read(rt: HostRuntime) -> Result<(), Fail> {
    let alloc = rt.alloc();
    let cases = [(0, false), (2, false), (3, false), (4, true)];
    for (call, ends) in cases {
        let fails = Numbers::from_vec(vec![in alloc; call]?);
        let bytes = Bytes::from_vec(b"measure".to_vec(alloc)?);
        let mut source = MemSource::new(bytes, 3, fails);
        match read_all(alloc, &mut source, 100) {
            Ok(read) => {
                assert!(rt; ends);
                assert_eq!(rt; read.as_slice(), b"measure".as_slice());
            }
            Err(error) => assert_eq!(rt; (error, ends), (ReadEnd::Fault, false), "at {call}"),
        }
    }
    Ok(())
}

#[test]
fn a_sure_source_gives_its_bytes(rt: HostRuntime) -> Result<(), Fail> {
    let alloc = rt.alloc();
    let mut source = SureSource::new(Bytes::from_vec(b"cqp".to_vec(alloc)?));
    let read = read_all(alloc, &mut source, 3).ok();
    assert_eq!(rt; read, Some(Bytes::from_vec(b"cqp".to_vec(alloc)?)));
    Ok(())
}

#[test]
fn a_failed_write_leaves_a_prefix(rt: HostRuntime) -> Result<(), Fail> {
    let alloc = rt.alloc();
    let line = b"end done 0\n".as_slice();
    let cases = [
        (11, 1, 99, Ok(()), line),
        (11, 3, 99, Ok(()), line),
        (64, 100, 99, Ok(()), line),
        (64, 4, 0, Err(Failed), b"".as_slice()),
        (64, 4, 1, Err(Failed), b"end ".as_slice()),
        (5, 4, 99, Err(Failed), b"end d".as_slice()),
    ];
    for (room, step, call, end, held) in cases {
        assert!(rt; 1 <= step);
        let fails = Numbers::from_vec(vec![in alloc; call]?);
        let mut sink = MemSink::new(alloc, room, step, fails)?;
        assert_eq!(rt; write_all(&mut sink, line), end, "room {room}, step {step}");
        assert_eq!(rt; sink.bytes(), held, "room {room}, step {step}");
    }
    Ok(())
}
