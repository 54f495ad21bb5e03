//! Worked traces: what is read is written again, and which line is refused.

ghost use Rattle.std.specs.Prelude.{◌<◌, ◌^◌, length};

use cqp_outside::Bytes;
use cqp_ring::{Root, Weight};
use cqp_syntax::{Names, Op};
use cqp_trace::{Deed, End, Entries, Entry, Trace, TraceEnd, read_old, read_trace, trace_text};
use std::alloc::Global;
use std::test::Fail;

// Teleportation, without the head line.
const TELEPORTATION: &str = "0 qbit 0\n0 qbit 1\n0 qbit 2\n0 new 0\n0 gate H 1\n0 act\n\
    0 gate CNot 1 2\n0 act\n0 gate CNot 0 1\n0 act\n0 gate H 0\n0 act\n0 measure 0 1 = 3\n\
    0 com 1 on 0\n1 pick Y\n1 gate Y 2\n1 act\nend done 0\nweight (1+0r)/2^2\n";

/// The text in today's form of the trace whose old text the bytes are.
fn renewed(alloc: Global, bytes: &[u8]) -> Result<Bytes, TraceEnd>
    requires { length bytes.now < 2 ^ 31 }
{
    let trace = read_old(alloc, bytes)?;
    Ok(trace_text(alloc, &trace)?)
}

#[test]
fn texts_are_read_and_written_again(rt: HostRuntime) -> Result<(), Fail> {
    let alloc = rt.alloc();
    let texts = [
        // An empty run, and one that ends with a part left.
        "end done 0\nweight (1+0r)/2^0\n",
        "0 new 0\nend done 1\nweight (1+0r)/2^0\n",
        TELEPORTATION,
        // Weights of both signs.
        "0 qbit 0\n0 gate H 0\n0 act\n0 gate T 0\n0 act\n0 gate H 0\n0 act\n0 measure 0 = 0\n\
         0 act\nend done 0\nweight (2+1r)/2^2\n",
        "0 measure 0 = 1\n0 act\nend done 0\nweight (2-1r)/2^2\n",
        "0 measure 0 = 1\n0 if yes\n0 gate X 0\n0 act\nend done 0\nweight (1+0r)/2^1\n",
        "0 measure 0 = 0\n0 if no\nend done 0\nweight (1+0r)/2^1\n",
        "0 new 0\n0 com 2 on 0\nend done 1\nweight (1+0r)/2^0\n",
        "0 new 0\n0 add 0\n0 com 1 on 0\n1 qbit 0\n1 add 7\n1 pick Y\n1 gate Y 0\n1 act\n\
         end done 0\nweight (1+0r)/2^0\n",
        // The ends of the ranges; operands may repeat.
        "4294967295 new 4294967295\n4294967295 com 0 on 4294967295\n0 add 4294967295\n\
         0 qbit 11\n0 pick I\n0 pick X\n0 pick Z\n0 gate I 0\n0 gate S 11\n0 gate Z 0\n\
         0 gate CNot 3 3\n0 measure 11 10 9 8 7 6 5 4 3 2 1 0 = 4095\n0 measure 0 0 = 0\n\
         end stopped 4294967295\n\
         weight (85070591730234615865843651857942052864-85070591730234615865843651857942052864r)\
         /2^90\n",
        "end done 3\nweight (85070591730234615865843651857942052864\
         +85070591730234615865843651857942052864r)/2^90\n",
        "end done 3\nweight (0+0r)/2^90\n",
    ];
    for text in texts {
        // Both forms, and the one from the other.
        let current = format!(in alloc; "trace 2\n{text}")?;
        assert!(rt; text.len() < 1000 && current.len() < 1000);
        let trace = read_trace(alloc, current.as_bytes())
            .ok()
            .ok_or("a text is read")?;
        assert_eq!(rt; trace_text(alloc, &trace)?.as_slice(), current.as_bytes());
        let new = renewed(alloc, text.as_bytes())
            .ok()
            .ok_or("an old text is read")?;
        assert_eq!(rt; new.as_slice(), current.as_bytes());
    }
    Ok(())
}

#[test]
fn new_gates_stand_in_no_old_text(rt: HostRuntime) -> Result<(), Fail> {
    let alloc = rt.alloc();
    let lines = "0 qbit 0\n0 qbit 1\n0 qbit 2\n0 gate X 0\n0 act\n0 gate Swap 0 1\n0 act\n\
        0 gate X 0\n0 act\n0 gate Toffoli 0 1 2\n0 act\n0 gate CZ 0 2\n0 act\n\
        0 measure 0 1 2 = 7\n0 act\nend done 0\nweight (1+0r)/2^0\n";
    let text = format!(in alloc; "trace 2\n{lines}")?;
    assert!(rt; text.len() < 1000);
    let trace = read_trace(alloc, text.as_bytes())
        .ok()
        .ok_or("a text is read")?;
    assert_eq!(rt; trace_text(alloc, &trace)?.as_slice(), text.as_bytes());
    let old = read_old(alloc, lines.as_bytes());
    assert!(rt; matches!(old, Err(TraceEnd::Refused { line: 6 })));
    Ok(())
}

#[test]
fn a_trace_made_by_hand_is_written(rt: HostRuntime) -> Result<(), Fail> {
    let alloc = rt.alloc();
    let mut entries = Entries::with_capacity(alloc, 2)?;
    assert!(rt; entries.is_empty());
    let qubits = Names::from_vec([2, 0, 1].to_vec(alloc)?);
    let op = Op::Toffoli;
    entries.push(Entry {
        part: 4,
        deed: Deed::Gate { op, qubits },
    })?;
    entries.push(Entry {
        part: 4,
        deed: Deed::Com { to: 5, chan: 6 },
    })?;
    assert_eq!(rt; entries.len(), 2);
    let trace = Trace {
        entries: Entries::from_vec(entries.into_vec()),
        end: End::Stopped { part: 4 },
        weight: Weight {
            top: Root { p: 2, q: -1 },
            below: 2,
        },
    };
    let text = "trace 2\n4 gate Toffoli 2 0 1\n4 com 5 on 6\nend stopped 4\nweight (2-1r)/2^2\n";
    assert_eq!(rt; trace_text(alloc, &trace)?.as_slice(), text.as_bytes());
    Ok(())
}

#[test]
fn the_first_wrong_line_is_told(rt: HostRuntime) -> Result<(), Fail> {
    let alloc = rt.alloc();
    // Texts, and the line that is refused in each.
    let cases: [(&str, u32); 44] = [
        ("", 0),
        ("trace 2", 0),
        ("trace 1\n", 0),
        ("trace 2\r\n", 0),
        ("0 qbit 0\nend done 0\nweight (1+0r)/2^0\n", 0),
        ("trace 2\n", 1),
        ("trace 2\nend done 0", 1),
        ("trace 2\nweight (1+0r)/2^0\n", 1),
        ("trace 2\ntrace 2\n", 1),
        ("trace 2\nend done 0\n", 2),
        ("trace 2\nend done 0\nweight (1+0r)/2^0", 2),
        ("trace 2\nend done 0\nend done 0\n", 2),
        ("trace 2\nend done 0\nweight (1+0r)/2^0\n\n", 3),
        ("trace 2\nend done 0\nweight (1+0r)/2^0\n0", 3),
        ("trace 2\nend done 00\n", 1),
        ("trace 2\nend done 4294967296\n", 1),
        ("trace 2\nend done -1\n", 1),
        ("trace 2\nend stopped\n", 1),
        ("trace 2\n00 act\n", 1),
        ("trace 2\n 0 act\n", 1),
        ("trace 2\n0 act \n", 1),
        ("trace 2\n0  act\n", 1),
        ("trace 2\n4294967296 act\n", 1),
        ("trace 2\n0 qbit 12\n", 1),
        ("trace 2\n0 qbit 0\n0 new 4294967296\n", 2),
        ("trace 2\n0 add 01\n", 1),
        ("trace 2\n0 pick H\n", 1),
        ("trace 2\n0 gate X\n", 1),
        ("trace 2\n0 gate X 0 1\n", 1),
        ("trace 2\n0 gate CNot 0\n", 1),
        ("trace 2\n0 gate Toffoli 0 1\n", 1),
        ("trace 2\n0 gate Sw 0\n", 1),
        ("trace 2\n0 gate x 0\n", 1),
        ("trace 2\n0 measure = 0\n", 1),
        ("trace 2\n0 measure 0 = 2\n", 1),
        ("trace 2\n0 measure 0 0 0 0 0 0 0 0 0 0 0 0 0 = 0\n", 1),
        ("trace 2\n0 com 1 on\n", 1),
        ("trace 2\n0 if maybe\n", 1),
        ("trace 2\nend done 0\nweight (1-0r)/2^0\n", 2),
        ("trace 2\nend done 0\nweight (-1+0r)/2^0\n", 2),
        ("trace 2\nend done 0\nweight (1+0r)/2^91\n", 2),
        ("trace 2\nend done 0\nweight (1+0)/2^0\n", 2),
        (
            "trace 2\nend done 0\nweight (85070591730234615865843651857942052865+0r)/2^0\n",
            2,
        ),
        ("trace 2\n0 act\r\n", 1),
    ];
    for (text, number) in cases {
        assert!(rt; text.len() < 1000);
        match read_trace(alloc, text.as_bytes()) {
            Err(TraceEnd::Refused { line }) => assert_eq!(rt; line, number),
            _ => return Err(Fail::from("a text is refused")),
        }
    }
    Ok(())
}

#[test]
fn lines_of_old_texts_count_from_one(rt: HostRuntime) -> Result<(), Fail> {
    let alloc = rt.alloc();
    let cases = [
        ("", 1),
        ("trace 2\n", 1),
        ("0 qbit 0\n0 act\nend done 0\nweight (1+0r)/2^1", 4),
        ("0 qbit 0\n0 gate CZ 0 1\n", 2),
        ("end done 0\nweight (1+0r)/2^0\n\n", 3),
    ];
    for (text, number) in cases {
        assert!(rt; text.len() < 1000);
        match read_old(alloc, text.as_bytes()) {
            Err(TraceEnd::Refused { line }) => assert_eq!(rt; line, number),
            _ => return Err(Fail::from("a text is refused")),
        }
    }
    // The first ten lines of teleportation, with the head line: the eleventh is missing.
    let text = format!(in alloc; "trace 2\n{TELEPORTATION}")?;
    assert!(rt; 98 <= text.len() && text.len() < 1000);
    let front = &text.as_bytes()[..98];
    assert!(rt;
        matches!(
            read_trace(alloc, front),
            Err(TraceEnd::Refused { line: 10 })
        )
    );
    Ok(())
}
