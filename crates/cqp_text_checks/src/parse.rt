//! Texts that are read and printed again, and texts that are refused, as tables.

mod limits;

use cqp_parse::{Bytes, NoMemory, ParseEnd, parse, print, print_and_parse};
use std::alloc::Global;
use std::process::Abort;
use std::test::Fail;

/// The answer to a text of fewer than 100,000 bytes: the canonical text, or why there is none.
pub(crate) fn answer(alloc: Global, text: &[u8]) -> Result<Vec<u8>, NoMemory> {
    if text.len() >= 100_000 {
        return Vec::from_slice(alloc, b"long");
    }
    match parse(alloc, text) {
        Ok(program) => Ok(print(alloc, &program)?.into_vec()),
        Err(ParseEnd::Refused { at }) => told(alloc, b"refused at ", at),
        Err(ParseEnd::Deep { at }) => told(alloc, b"deep at ", at),
        Err(ParseEnd::NoMemory) => Vec::from_slice(alloc, b"no memory"),
    }
}

/// Words and an offset.
fn told(alloc: Global, words: &[u8], at: u32) -> Result<Vec<u8>, NoMemory> {
    let mut line = Vec::from_slice(alloc, words)?;
    let number = format!(in alloc; "{at}")?;
    line.extend_from_slice(number.as_bytes())?;
    Ok(line)
}

/// The canonical text of a short text's program that was printed and read again.
fn again(alloc: Global, text: &[u8]) -> Result<Option<Vec<u8>>, NoMemory> {
    if text.len() >= 1000 {
        return Ok(None);
    }
    let Ok(program) = parse(alloc, text) else {
        return Ok(None);
    };
    let printed = print(alloc, &program)?;
    if printed.len() >= 1000 {
        return Ok(None);
    }
    let mut text = Bytes::new(alloc);
    let Ok(program) = print_and_parse(alloc, &program, &mut text) else {
        return Ok(None);
    };
    let printed = print(alloc, &program)?;
    Ok(Some(printed.into_vec()))
}

/// Asserts the answers to some texts.
fn tells(rt: &impl Abort, alloc: Global, cases: &[(&str, &str)]) -> Result<(), Fail> {
    for (text, wanted) in cases {
        let given = answer(alloc, text.as_bytes())?;
        assert_eq!(rt; given.as_slice(), wanted.as_bytes(), "{text}");
    }
    Ok(())
}

/// A text so many times, and another behind it.
pub(crate) fn repeated(
    alloc: Global,
    text: &[u8],
    count: usize,
    last: &[u8],
) -> Result<Vec<u8>, NoMemory> {
    let mut bytes = Vec::new(alloc);
    for _ in 0..count {
        bytes.extend_from_slice(text)?;
    }
    bytes.extend_from_slice(last)?;
    Ok(bytes)
}

#[test]
fn parentheses_stand_where_they_must(rt: HostRuntime) -> Result<(), Fail> {
    let cases = [
        ("( qbit x ) 0 -- end", "(qbit x)0"),
        // A process beside another, as a body and on the left side.
        ("(qbit x)(0|0)", "(qbit x)(0|0)"),
        ("((0))|(0|(0))", "0|0|0"),
        ("(0|0)|0", "(0|0)|0"),
        ("if 0=0 then (0|0) else (0)", "if 0=0 then(0|0)else 0"),
        // An application in braces, in parentheses, in `sig( )` and in a list.
        ("{(x*=(H))}.0", "{x*=H}.0"),
        ("{((x,y*=CNot))}.0", "{x,y*=CNot}.0"),
        ("{sig((x*=(S+T)))}.0", "{sig(x*=S+T)}.0"),
        ("c![(x*=X)].0", "c![(x*=X)].0"),
        ("{1+(x*=X)}.0", "{1+(x*=X)}.0"),
        // A measurement as an operand, as an operator and as an item with another behind it.
        ("{(measure x)+1}.0", "{(measure x)+1}.0"),
        ("{y*=(measure x)}.0", "{y*=(measure x)}.0"),
        ("c![(measure z),x].0", "c![(measure z),x].0"),
        ("c![measure z,x].0", "c![measure z,x].0"),
        ("c![measure x,1].0", "c![(measure x),1].0"),
        ("c![1,(measure x)].0", "c![1,measure x].0"),
        (
            "c![(measure x,y),(x*=H),measure x].0",
            "c![(measure x,y),(x*=H),measure x].0",
        ),
        (
            "if (measure x)=measure y then 0 else 0",
            "if measure x=measure y then 0 else 0",
        ),
        // Sums on the left and on the right side.
        ("{a + b + c}.0", "{a+b+c}.0"),
        ("{(1+2)+3}.0", "{1+2+3}.0"),
        ("{1+(2+3)}.0", "{1+(2+3)}.0"),
    ];
    tells(&rt, rt.alloc(), &cases)
}

#[test]
fn each_construct_is_read(rt: HostRuntime) -> Result<(), Fail> {
    let cases = [
        ("0", "0"),
        ("f()", "f()"),
        ("f(x , y)", "f(x,y)"),
        ("(new c:^[])c![].0", "(new c:^[])c![].0"),
        (
            "( new c : ^ [ Int , Op ( 2 ) , ^ [ Qbit ] ] ) 0",
            "(new c:^[Int,Op(2),^[Qbit]])0",
        ),
        ("c ? [ ] . 0", "c?[].0"),
        (
            "c?[x:Int,u:Op(1),v:Op(3),d:^[^[Unit],Qbit]].0",
            "c?[x:Int,u:Op(1),v:Op(3),d:^[^[Unit],Qbit]].0",
        ),
        (
            "c![unit,I,X,Y,Z,H,S,T,CNot,CZ,Swap,Toffoli,4294967295].0",
            "c![unit,I,X,Y,Z,H,S,T,CNot,CZ,Swap,Toffoli,4294967295].0",
        ),
        (
            "def f(x:Qbit)=d![x].0;def g()=f(y)|0;g()",
            "def f(x:Qbit)=d![x].0;def g()=f(y)|0;g()",
        ),
        ("def f ( ) = (0|0) ; f ( )", "def f()=0|0;f()"),
        (
            "(new c:^[Unit])(qbit x)c?[n:Qbit].{sig(unit)}.(0|0)",
            "(new c:^[Unit])(qbit x)c?[n:Qbit].{sig(unit)}.(0|0)",
        ),
    ];
    tells(&rt, rt.alloc(), &cases)
}

#[test]
fn programs_are_read_again(rt: HostRuntime) -> Result<(), Fail> {
    let cases: [(&[u8], &[u8]); 3] = [
        (b"( qbit x ) 0 -- end", b"(qbit x)0"),
        (b"c![(measure x) , 1] . (0 | 0)", b"c![(measure x),1].(0|0)"),
        (
            b"def f(x : Qbit) = d![x] . 0 ; f(y)",
            b"def f(x:Qbit)=d![x].0;f(y)",
        ),
    ];
    for (text, wanted) in cases {
        let given = again(rt.alloc(), text)?;
        assert_eq!(rt; given.as_deref(), Some(wanted));
    }
    Ok(())
}

#[test]
fn refusals_tell_their_token(rt: HostRuntime) -> Result<(), Fail> {
    let cases = [
        ("", "refused at 0"),
        ("{measure x, 1}.0", "refused at 12"),
        ("c![measure x,y + 1].0", "refused at 15"),
        ("12ab", "refused at 0"),
        ("007", "refused at 0"),
        ("{4294967296}.0", "refused at 1"),
        ("{x *}.0", "refused at 3"),
        ("0 0", "refused at 2"),
        ("0|", "refused at 2"),
        ("(0", "refused at 2"),
        ("0)", "refused at 1"),
        ("def f()=0", "refused at 9"),
        ("def f()=0;", "refused at 10"),
        ("(new c:Op(0))0", "refused at 10"),
        ("(new c:Op(4))0", "refused at 10"),
        ("{x,y}.0", "refused at 4"),
        ("if 0 then 0 else 0", "refused at 5"),
    ];
    tells(&rt, rt.alloc(), &cases)
}

#[test]
fn reserved_words_are_no_names(rt: HostRuntime) -> Result<(), Fail> {
    let words = [
        "def", "new", "qbit", "measure", "sig", "if", "then", "else", "unit", "Int", "Unit",
        "Qbit", "Op", "I", "X", "Y", "Z", "H", "S", "T", "CNot", "CZ", "Swap", "Toffoli",
    ];
    let alloc = rt.alloc();
    for word in words {
        let text = repeated(alloc, b"(qbit ", 1, word.as_bytes())?;
        let given = answer(alloc, text.as_slice())?;
        assert_eq!(rt; given.as_slice(), b"refused at 6".as_slice(), "{word}");
    }
    Ok(())
}

#[test]
fn an_end_is_told_in_words(rt: HostRuntime) -> Result<(), Fail> {
    let cases = [
        (ParseEnd::Refused { at: 3 }, "refused at 3"),
        (
            ParseEnd::Deep { at: 107 },
            "more than 100 brackets are open at 107",
        ),
        (ParseEnd::NoMemory, "out of memory"),
    ];
    for (end, wanted) in cases {
        let given = format!(in rt.alloc(); "{end}")?;
        assert_eq!(rt; given.as_str(), wanted);
    }
    Ok(())
}
