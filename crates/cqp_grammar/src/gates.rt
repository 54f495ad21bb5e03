//! Gates and their reserved words.

ghost use Rattle.std.specs.Prelude.{◌≡◌};
ghost use Rattle.cqp_grammar.specs.Grammar.{gate_of_word, gate_word};

use crate::token::ReservedWord;
use cqp_syntax::Op;

/// The reserved word of a gate.
pub fn gate_word(op: Op) -> ReservedWord
    ensures { result ≡ gate_word op }
{
    match op {
        Op::I => ReservedWord::I,
        Op::X => ReservedWord::X,
        Op::Y => ReservedWord::Y,
        Op::Z => ReservedWord::Z,
        Op::H => ReservedWord::H,
        Op::S => ReservedWord::S,
        Op::T => ReservedWord::T,
        Op::CNot => ReservedWord::CNot,
        Op::CZ => ReservedWord::CZ,
        Op::Swap => ReservedWord::Swap,
        Op::Toffoli => ReservedWord::Toffoli,
    }
}

/// The gate of a reserved word. `None` where it is the word of none.
pub fn gate_of_word(word: ReservedWord) -> Option<Op>
    ensures { result ≡ gate_of_word word }
{
    match word {
        ReservedWord::I => Some(Op::I),
        ReservedWord::X => Some(Op::X),
        ReservedWord::Y => Some(Op::Y),
        ReservedWord::Z => Some(Op::Z),
        ReservedWord::H => Some(Op::H),
        ReservedWord::S => Some(Op::S),
        ReservedWord::T => Some(Op::T),
        ReservedWord::CNot => Some(Op::CNot),
        ReservedWord::CZ => Some(Op::CZ),
        ReservedWord::Swap => Some(Op::Swap),
        ReservedWord::Toffoli => Some(Op::Toffoli),
        _ => None,
    }
}
