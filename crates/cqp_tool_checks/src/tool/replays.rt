//! Whole calls of `replay`, `upgrade` and `gen`: traces that are accepted, each reason against one,
//! how an input is cut, and sums.

use crate::tool::{repeated, serve, tells};
use cqp_tool::Status;
use std::test::Fail;

/// A qubit that is measured.
const COIN: &str = "(qbit x){x *= H}.{measure x}.0\n";

/// A trace of it without its head line.
const TAILS: &str = "0 qbit 0\n0 gate H 0\n0 act\n0 measure 0 = 1\n0 act\nend done 0\n\
    weight (1+0r)/2^1\n";

#[test]
fn a_trace_is_accepted_or_told(rt: HostRuntime) -> Result<(), Fail> {
    let end = "end done 0\nweight (1+0r)/2^0\n";
    let cases = [
        (TAILS, "", Status::Done, "accepted entries 5\n"),
        ("", "", Status::TraceRefused, "trace Refused at line 1\n"),
        (
            "0 gate H 0\n",
            end,
            Status::TraceRefused,
            "trace NotStep at line 1\n",
        ),
        (
            "0 qbit 0\n0 gate H 0\n",
            end,
            Status::TraceRefused,
            "trace NotEnd at line 3\n",
        ),
        (
            "0 qbit 0\n0 gate H 0\n0 act\n0 measure 0 = 1\n0 act\nend done 0\n",
            "weight (2+0r)/2^2\n",
            Status::TraceRefused,
            "trace WrongWeight at line 7\n",
        ),
    ];
    for (entries, rest, status, line) in cases {
        let mut input = repeated(rt.alloc(), COIN, "%trace\n", 1, "trace 2\n")?;
        input.extend_from_slice(entries.as_bytes())?;
        input.extend_from_slice(rest.as_bytes())?;
        tells(&rt, rt.alloc(), "replay", &input, status, line)?;
    }
    Ok(())
}

#[test]
fn an_old_text_is_printed_anew(rt: HostRuntime) -> Result<(), Fail> {
    let alloc = rt.alloc();
    let input = repeated(alloc, COIN, "%trace\n", 1, TAILS)?;
    let wanted = repeated(alloc, "", "trace 2\n", 1, TAILS)?;
    let (status, output) = serve(alloc, &["upgrade"], &input, &[], &[])?;
    assert_eq!(rt; status, Status::Done);
    assert_eq!(rt; output.as_slice(), wanted.as_slice());
    let line = "trace Refused at line 0\n";
    tells(&rt, alloc, "replay", &input, Status::TraceRefused, line)
}

#[test]
fn an_input_is_cut_at_the_first_marker(rt: HostRuntime) -> Result<(), Fail> {
    let nothing = "trace 2\nend done 0\nweight (1+0r)/2^0\n";
    let cases = [
        ("0\n%trace\n", nothing, Status::Done, "accepted entries 0\n"),
        ("0", "", Status::TraceRefused, "trace Missing\n"),
        (
            "0\n%trace",
            "",
            Status::TraceRefused,
            "trace Refused at line 0\n",
        ),
        (
            "0\n%trace\n",
            "",
            Status::TraceRefused,
            "trace Refused at line 0\n",
        ),
        (
            "0\n%trace\n%trace\n",
            nothing,
            Status::TraceRefused,
            "trace Refused at line 0\n",
        ),
        (
            "0\n%trace \n%trace\n",
            nothing,
            Status::TextRefused,
            "text refused at 2\n",
        ),
        (
            "0 %trace\n",
            nothing,
            Status::TextRefused,
            "text refused at 2\n",
        ),
        (
            "%trace\n",
            nothing,
            Status::TextRefused,
            "text refused at 0\n",
        ),
    ];
    for (text, trace, status, line) in cases {
        let input = repeated(rt.alloc(), text, trace, 1, "")?;
        tells(&rt, rt.alloc(), "replay", &input, status, line)?;
    }
    Ok(())
}

#[test]
fn inputs_have_limits(rt: HostRuntime) -> Result<(), Fail> {
    let alloc = rt.alloc();
    let most = repeated(alloc, "0", "        ", 262_143, "       ")?;
    let line = "limit text 65536\n";
    tells(&rt, alloc, "replay", &most, Status::LimitRefused, line)?;
    let over = repeated(alloc, "0", "        ", 262_144, "")?;
    let line = "limit input 2097152\n";
    tells(&rt, alloc, "upgrade", &over, Status::LimitRefused, line)
}

#[test]
fn a_generated_program_is_summed_up(rt: HostRuntime) -> Result<(), Fail> {
    let wanted = "gen 2\nentries 168\ngates 48\ncoms 24\nmeasures 12\nweight (1+0r)/2^12\n";
    // The source fails at its first call, which does not come.
    let (status, output) = serve(rt.alloc(), &["gen", "2"], b"0", &[0], &[])?;
    assert_eq!(rt; status, Status::Done);
    assert_eq!(rt; output.as_slice(), wanted.as_bytes());
    Ok(())
}
