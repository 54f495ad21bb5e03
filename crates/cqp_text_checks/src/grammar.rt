//! Texts and their tokens, as tables.

use cqp_grammar::{NoMemory, ReservedWord, SymbolKind, Token, tokens};
use std::alloc::Global;
use std::test::Fail;

/// A token as a table has it.
#[derive(Clone, Copy)]
enum Row {
    Name(&'static [u8], u32),
    Number(u32, u32),
    Reserved(ReservedWord, u32),
    Symbol(SymbolKind, u32),
    Bad(u32),
    End(u32),
}

fn is_row(token: &Token, row: Row) -> bool {
    match (token, row) {
        (Token::Name { text, at }, Row::Name(wanted, offset)) => {
            text.as_slice() == wanted && *at == offset
        }
        (Token::Number { v, at }, Row::Number(wanted, offset)) => *v == wanted && *at == offset,
        (Token::Reserved { reserved, at }, Row::Reserved(wanted, offset)) => {
            *reserved == wanted && *at == offset
        }
        (Token::Symbol { symbol, at }, Row::Symbol(wanted, offset)) => {
            *symbol == wanted && *at == offset
        }
        (Token::Bad { at }, Row::Bad(offset)) => *at == offset,
        (Token::End { at }, Row::End(offset)) => *at == offset,
        _ => false,
    }
}

/// Whether the text is short, and its tokens are these rows.
fn reads_as(alloc: Global, text: &[u8], rows: &[Row]) -> Result<bool, NoMemory> {
    if text.len() >= 1000 {
        return Ok(false);
    }
    let tokens = tokens(alloc, text)?;
    if tokens.len() != rows.len() {
        return Ok(false);
    }
    for (token, row) in tokens.iter().zip(rows) {
        if !is_row(token, *row) {
            return Ok(false);
        }
    }
    Ok(true)
}

#[test]
fn texts_are_read(rt: HostRuntime) -> Result<(), Fail> {
    let cases: [(&[u8], &[Row]); 20] = [
        (b"", &[Row::End(0)]),
        (b" \t\r\n", &[Row::End(4)]),
        (
            b"12ab",
            &[Row::Number(12, 0), Row::Name(b"ab", 2), Row::End(4)],
        ),
        (
            b"def_ a_1Z",
            &[Row::Name(b"def_", 0), Row::Name(b"a_1Z", 5), Row::End(9)],
        ),
        (
            b"Def deft",
            &[Row::Name(b"Def", 0), Row::Name(b"deft", 4), Row::End(8)],
        ),
        (b"0", &[Row::Number(0, 0), Row::End(1)]),
        (b"007", &[Row::Bad(0)]),
        (b"00", &[Row::Bad(0)]),
        (
            b"4294967295",
            &[Row::Number(4_294_967_295, 0), Row::End(10)],
        ),
        (b"x 4294967296 y", &[Row::Name(b"x", 0), Row::Bad(2)]),
        (b"99999999999999999999999", &[Row::Bad(0)]),
        (b"0--x", &[Row::Number(0, 0), Row::End(4)]),
        (b"-- x\n0", &[Row::Number(0, 5), Row::End(6)]),
        (b"--\xff--\n--\n", &[Row::End(9)]),
        (b"*=*", &[Row::Symbol(SymbolKind::Applies, 0), Row::Bad(2)]),
        (
            b"= =",
            &[
                Row::Symbol(SymbolKind::Equals, 0),
                Row::Symbol(SymbolKind::Equals, 2),
                Row::End(3),
            ],
        ),
        (b"x-", &[Row::Name(b"x", 0), Row::Bad(1)]),
        (b"_a", &[Row::Bad(0)]),
        (b"(\x80", &[Row::Symbol(SymbolKind::Open, 0), Row::Bad(1)]),
        (b"\0", &[Row::Bad(0)]),
    ];
    for (text, rows) in cases {
        assert!(rt; reads_as(rt.alloc(), text, rows)?, "{text:?}");
    }
    Ok(())
}

#[test]
fn each_reserved_word_is_read(rt: HostRuntime) -> Result<(), Fail> {
    let cases: [(&[u8], ReservedWord, u32); 24] = [
        (b"def", ReservedWord::Def, 3),
        (b"new", ReservedWord::New, 3),
        (b"qbit", ReservedWord::MakeQbit, 4),
        (b"measure", ReservedWord::Measure, 7),
        (b"sig", ReservedWord::Sig, 3),
        (b"if", ReservedWord::If, 2),
        (b"then", ReservedWord::Then, 4),
        (b"else", ReservedWord::Else, 4),
        (b"unit", ReservedWord::UnitValue, 4),
        (b"Int", ReservedWord::IntType, 3),
        (b"Unit", ReservedWord::UnitType, 4),
        (b"Qbit", ReservedWord::QbitType, 4),
        (b"Op", ReservedWord::OpType, 2),
        (b"I", ReservedWord::I, 1),
        (b"X", ReservedWord::X, 1),
        (b"Y", ReservedWord::Y, 1),
        (b"Z", ReservedWord::Z, 1),
        (b"H", ReservedWord::H, 1),
        (b"S", ReservedWord::S, 1),
        (b"T", ReservedWord::T, 1),
        (b"CNot", ReservedWord::CNot, 4),
        (b"CZ", ReservedWord::CZ, 2),
        (b"Swap", ReservedWord::Swap, 4),
        (b"Toffoli", ReservedWord::Toffoli, 7),
    ];
    for (text, reserved, end) in cases {
        assert!(rt;
            reads_as(
                rt.alloc(),
                text,
                &[Row::Reserved(reserved, 0), Row::End(end)]
            )?,
            "{text:?}"
        );
    }
    Ok(())
}

#[test]
fn each_symbol_is_read(rt: HostRuntime) -> Result<(), Fail> {
    let cases: [(&[u8], SymbolKind, u32); 17] = [
        (b"(", SymbolKind::Open, 1),
        (b")", SymbolKind::Close, 1),
        (b"[", SymbolKind::OpenList, 1),
        (b"]", SymbolKind::CloseList, 1),
        (b"{", SymbolKind::OpenAct, 1),
        (b"}", SymbolKind::CloseAct, 1),
        (b".", SymbolKind::Dot, 1),
        (b",", SymbolKind::Comma, 1),
        (b":", SymbolKind::Colon, 1),
        (b";", SymbolKind::Semicolon, 1),
        (b"=", SymbolKind::Equals, 1),
        (b"*=", SymbolKind::Applies, 2),
        (b"?", SymbolKind::Question, 1),
        (b"!", SymbolKind::Bang, 1),
        (b"|", SymbolKind::Bar, 1),
        (b"^", SymbolKind::Caret, 1),
        (b"+", SymbolKind::Plus, 1),
    ];
    for (text, symbol, end) in cases {
        assert!(rt;
            reads_as(rt.alloc(), text, &[Row::Symbol(symbol, 0), Row::End(end)])?,
            "{text:?}"
        );
    }
    Ok(())
}
