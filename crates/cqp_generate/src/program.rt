//! The text of a generated program: its definitions, its binders with an H on each qubit, and its
//! six pairs of parts. Each piece is written behind what stands already.

ghost use Rattle.std.specs.Prelude.{◌≡◌, ◌<◌, ◌+◌, ◌^◌, ◌++◌, IfOk, OnOk, codes, flat_map};
ghost use Rattle.std.specs.List.{range_with_len};
ghost use Rattle.std.specs.String.{string_bytes};
ghost use Rattle.cqp_generate.specs.Generated.{call, channels, definitions, generated, left};
ghost use Rattle.cqp_generate.specs.Generated.{opening, pair, pairs, qubit, right, round, spread};

use cqp_outside::{Bytes, NoMemory};
use std::alloc::Global;

/// The text of the program with so many rounds, each line ended by a line feed.
pub fn program_text(alloc: Global, rounds: u32) -> Result<Bytes, NoMemory>
    ensures { IfOk result (λ bytes. bytes ≡ generated rounds) }
{
    let mut text = String::new(alloc);
    write_definitions(&mut text, rounds)?;
    write_opening(&mut text)?;
    write_pairs(&mut text, rounds)?;
    Ok(Bytes::from_vec(text.into_bytes()))
}

/// Writes the definitions for each number of rounds up to this one.
fn write_definitions(text: &mut String, rounds: u32) -> Result<(), NoMemory>
    ensures { OnOk result (string_bytes text.new ≡ string_bytes text.old ++ definitions rounds) }
{
    writeln!(text, "def L0(c:^[Qbit],d:^[Qbit],a:Qbit)={{measure a}}.0;")?;
    writeln!(text, "def R0(c:^[Qbit],d:^[Qbit],b:Qbit)={{measure b}}.0;")?;
    for next in 0..rounds {
        write_round(text, next)?;
    }
    Ok(())
}

/// Writes the two definitions that go on with those for `next` rounds.
fn write_round(text: &mut String, next: u32) -> Result<(), NoMemory>
    requires { next + 1 < 2 ^ 32 }
    ensures { OnOk result (string_bytes text.new ≡ string_bytes text.old ++ round next) }
{
    let this = next + 1;
    write_left(text, this, next)?;
    write_right(text, this, next)?;
    Ok(())
}

/// Writes the definition of the left part with `this` rounds to go.
fn write_left(text: &mut String, this: u32, next: u32) -> Result<(), NoMemory>
    ensures { OnOk result (string_bytes text.new ≡ string_bytes text.old ++ left this next) }
{
    writeln!(
        text,
        "def L{this}(c:^[Qbit],d:^[Qbit],a:Qbit)={{a *= T}}.c![a].d?[e:Qbit].L{next}(c,d,e);"
    )
}

/// Writes the definition of the right part with `this` rounds to go.
fn write_right(text: &mut String, this: u32, next: u32) -> Result<(), NoMemory>
    ensures { OnOk result (string_bytes text.new ≡ string_bytes text.old ++ right this next) }
{
    writeln!(
        text,
        "def R{this}(c:^[Qbit],d:^[Qbit],b:Qbit)=c?[a:Qbit].{{a,b *= CNot}}.{{b *= S}}\
         .d![a].R{next}(c,d,b);"
    )
}

/// Writes the binders of the qubits and channels, and an H on each qubit.
fn write_opening(text: &mut String) -> Result<(), NoMemory>
    ensures { OnOk result (string_bytes text.new ≡ string_bytes text.old ++ opening) }
{
    write_qubits(text)?;
    write_channels(text)?;
    write_spreads(text)?;
    Ok(())
}

/// Writes the binders of the qubits.
fn write_qubits(text: &mut String) -> Result<(), NoMemory>
    ensures { OnOk result (string_bytes text.new
        ≡ string_bytes text.old ++ (flat_map qubit (range_with_len 0 12) ++ codes "\n")) }
{
    for q in 0..12u32 {
        write!(text, "(qbit q{q})")?;
    }
    writeln!(text)
}

/// Writes the binders of each pair's channels.
fn write_channels(text: &mut String) -> Result<(), NoMemory>
    ensures { OnOk result (string_bytes text.new
        ≡ string_bytes text.old ++ (flat_map channels (range_with_len 0 6) ++ codes "\n")) }
{
    for i in 0..6u32 {
        write!(text, "(new c{i}:^[Qbit])(new d{i}:^[Qbit])")?;
    }
    writeln!(text)
}

/// Writes an H on each qubit.
fn write_spreads(text: &mut String) -> Result<(), NoMemory>
    ensures { OnOk result (string_bytes text.new
        ≡ string_bytes text.old ++ (flat_map spread (range_with_len 0 12) ++ codes "\n")) }
{
    for q in 0..12u32 {
        write!(text, "{{q{q} *= H}}.")?;
    }
    writeln!(text)
}

/// Writes the pairs side by side.
fn write_pairs(text: &mut String, rounds: u32) -> Result<(), NoMemory>
    ensures { OnOk result (string_bytes text.new ≡ string_bytes text.old ++ pairs rounds) }
{
    text.push('(')?;
    write_pair(text, rounds, 0)?;
    for i in 1..6u32 {
        text.push('|')?;
        write_pair(text, rounds, i)?;
    }
    writeln!(text, ")")?;
    Ok(())
}

/// Writes a pair with so many rounds to go.
fn write_pair(text: &mut String, rounds: u32, i: u32) -> Result<(), NoMemory>
    requires { i < 6 }
    ensures { OnOk result (string_bytes text.new ≡ string_bytes text.old ++ pair rounds i) }
{
    write_call(text, "L", rounds, i, 2 * i)?;
    write_call(text, "|R", rounds, i, 2 * i + 1)?;
    Ok(())
}

/// Writes the call of a part on the channels of pair `i` and on qubit `q`.
fn write_call(text: &mut String, name: &str, rounds: u32, i: u32, q: u32) -> Result<(), NoMemory>
    ensures { OnOk result (string_bytes text.new
        ≡ string_bytes text.old ++ call name.now rounds i q) }
{
    write!(text, "{name}{rounds}(c{i},d{i},q{q})")
}
