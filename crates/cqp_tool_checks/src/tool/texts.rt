//! Whole calls of `run` on texts: straight lines, refusals by the grammar, and limits.

use crate::tool::{repeated, serve, tells};
use cqp_tool::Status;
use std::test::Fail;

#[test]
fn straight_lines_are_run(rt: HostRuntime) -> Result<(), Fail> {
    let end = "end done 0\nweight (1+0r)/2^0\n";
    let cases = [
        ("(qbit x){x *= H}.0", "0 qbit 0\n0 gate H 0\n0 act\n"),
        ("(qbit x){x *= X}.0\n", "0 qbit 0\n0 gate X 0\n0 act\n"),
        ("0", ""),
        // Blanks and comments stand anywhere, a comment at the end without a line feed too.
        (" 0\r\n\t\n", ""),
        ("( qbit x ) 0 -- end", "0 qbit 0\n"),
        (
            "-- one\n(qbit--\nx){x*=H}\n. -- two\n0--",
            "0 qbit 0\n0 gate H 0\n0 act\n",
        ),
        // A name is the whole word, and means its last binder.
        (
            "(qbit ab)(qbit a){ab *= X}.0",
            "0 qbit 0\n0 qbit 1\n0 gate X 0\n0 act\n",
        ),
        (
            "(qbit a_1)(qbit a_1){a_1 *= H}.0",
            "0 qbit 0\n0 qbit 1\n0 gate H 1\n0 act\n",
        ),
        (
            "(qbit a){a *= H}.(qbit z)0",
            "0 qbit 0\n0 gate H 0\n0 act\n0 qbit 1\n",
        ),
        // A call is its definition's body, and a definition that is not called leaves nothing.
        (
            "def A(x:Qbit)={x *= H}.0;(qbit q)A(q)",
            "0 qbit 0\n0 gate H 0\n0 act\n",
        ),
        ("def A()=0;0", ""),
        // Parentheses leave no node.
        (
            "((qbit x)({(x *= (H))}.(0)))",
            "0 qbit 0\n0 gate H 0\n0 act\n",
        ),
    ];
    for (text, entries) in cases {
        let wanted = repeated(rt.alloc(), "trace 2\n", entries, 1, end)?;
        let (status, output) = serve(rt.alloc(), &["run"], text.as_bytes(), &[], &[])?;
        assert_eq!(rt; status, Status::Done, "{text}");
        assert_eq!(rt; output.as_slice(), wanted.as_slice(), "{text}");
    }
    Ok(())
}

#[test]
fn refusals_tell_their_token(rt: HostRuntime) -> Result<(), Fail> {
    let cases = [
        ("", "text refused at 0\n"),
        ("-- nothing", "text refused at 10\n"),
        ("{measure x, 1}.0", "text refused at 12\n"),
        ("{x,y}", "text refused at 4\n"),
        ("{x *= measure y}", "text refused at 6\n"),
        ("c![x *= H]", "text refused at 5\n"),
        ("0 0", "text refused at 2\n"),
        ("00", "text refused at 0\n"),
        ("(qbit 1)0", "text refused at 6\n"),
        ("0 - end", "text refused at 2\n"),
    ];
    for (text, line) in cases {
        let bytes = text.as_bytes();
        tells(&rt, rt.alloc(), "run", bytes, Status::TextRefused, line)?;
    }
    Ok(())
}

#[test]
fn prefixes_are_refused_at_their_ends(rt: HostRuntime) -> Result<(), Fail> {
    let text = b"(qbit x){x *= H}.0";
    for len in 0..text.len() {
        // In the first 12 bytes the last one, `*`, begins no token.
        let at = if len == 12 { 11 } else { len };
        let line = format!(in rt.alloc(); "text refused at {at}\n")?;
        tells(
            &rt,
            rt.alloc(),
            "run",
            &text[..len],
            Status::TextRefused,
            line.as_str(),
        )?;
    }
    Ok(())
}

#[test]
fn reserved_words_are_no_names(rt: HostRuntime) -> Result<(), Fail> {
    let words = [
        "def", "new", "qbit", "measure", "sig", "if", "then", "else", "unit", "Int", "Unit",
        "Qbit", "Op", "I", "X", "Y", "Z", "H", "S", "T", "CNot", "CZ", "Swap", "Toffoli",
    ];
    for word in words {
        let text = format!(in rt.alloc(); "(qbit {word})0")?;
        let line = "text refused at 6\n";
        let bytes = text.as_bytes();
        tells(&rt, rt.alloc(), "run", bytes, Status::TextRefused, line)?;
    }
    Ok(())
}

#[test]
fn limits_tell_what_is_passed(rt: HostRuntime) -> Result<(), Fail> {
    let alloc = rt.alloc();
    let limit = Status::LimitRefused;
    let refused = Status::TextRefused;
    let cases = [
        ("", "(", 101, "", limit, "limit depth 100 at 100\n"),
        ("", "(", 100, "A(", limit, "limit depth 100 at 101\n"),
        ("", "(", 100, "[", refused, "text refused at 100\n"),
        ("", "(", 100, "", refused, "text refused at 100\n"),
        ("", " ", 65_537, "", limit, "limit text 65536\n"),
        ("0", " ", 65_536, "", limit, "limit text 65536\n"),
        ("", " ", 65_536, "", refused, "text refused at 65536\n"),
    ];
    for (first, text, count, last, status, line) in cases {
        let bytes = repeated(alloc, first, text, count, last)?;
        tells(&rt, rt.alloc(), "run", &bytes, status, line)?;
    }
    Ok(())
}

#[test]
fn straight_lines_have_limits(rt: HostRuntime) -> Result<(), Fail> {
    let alloc = rt.alloc();
    let cases = [
        ("", "(qbit a)", 12, Status::Done),
        ("", "(qbit a)", 13, Status::LimitRefused),
        ("(qbit x)", "{x *= H}.", 90, Status::Done),
        ("(qbit x)", "{x *= H}.", 91, Status::Done),
        ("(qbit x)", "{x *= H}.{x *= T}.", 178, Status::Done),
        ("(qbit x)", "{x *= H}.{x *= T}.", 179, Status::Stopped),
        ("(qbit x)", "{x *= X}.", 4999, Status::Done),
        ("(qbit x)", "{x *= X}.", 5000, Status::LimitRefused),
    ];
    for (first, text, count, wanted) in cases {
        let bytes = repeated(alloc, first, text, count, "0")?;
        let (status, _) = serve(alloc, &["run"], &bytes, &[], &[])?;
        assert_eq!(rt; status, wanted, "{text} {count} times");
    }
    Ok(())
}
