//! The text of entries and of ends, put behind bytes.

ghost use Rattle.std.specs.Prelude.{◌≡◌, ◌++◌, OnOk};
ghost use Rattle.std.specs.Fmt.{decimal};
ghost use Rattle.cqp_syntax.specs.Gates.{op_text};
ghost use Rattle.cqp_trace.specs.Text.{deed_text, entry_line, entry_text, spaced};

use crate::NoMemory;
use crate::deed::Deed;
use crate::entry::Entry;
use cqp_syntax::Op;
use itoa::Buffer;

/// The line of an entry.
pub(crate) fn put_line(bytes: &mut Vec<u8>, entry: &Entry) -> Result<(), NoMemory>
    ensures { OnOk result (bytes.new.items ≡ bytes.old.items ++ entry_line entry.now) }
{
    put_entry(bytes, entry)?;
    bytes.extend_from_slice(b"\n")
}

/// The text of an entry.
fn put_entry(bytes: &mut Vec<u8>, entry: &Entry) -> Result<(), NoMemory>
    ensures { OnOk result (bytes.new.items ≡ bytes.old.items ++ entry_text entry.now) }
{
    put_number(bytes, entry.part)?;
    bytes.extend_from_slice(b" ")?;
    put_deed(bytes, &entry.deed)
}

/// The text of a deed.
fn put_deed(bytes: &mut Vec<u8>, deed: &Deed) -> Result<(), NoMemory>
    ensures { OnOk result (bytes.new.items ≡ bytes.old.items ++ deed_text deed.now) }
{
    match deed {
        Deed::Qbit { q } => put_with(bytes, b"qbit ", *q),
        Deed::New { c } => put_with(bytes, b"new ", *c),
        Deed::Act => bytes.extend_from_slice(b"act"),
        Deed::Add { v } => put_with(bytes, b"add ", *v),
        Deed::Pick { op } => put_op(bytes, b"pick ", *op),
        Deed::Gate { op, qubits } => {
            put_op(bytes, b"gate ", *op)?;
            put_all(bytes, qubits.as_slice())
        }
        Deed::Measure { qubits, outcome } => {
            bytes.extend_from_slice(b"measure")?;
            put_all(bytes, qubits.as_slice())?;
            put_with(bytes, b" = ", *outcome)
        }
        Deed::Com { to, chan } => {
            put_with(bytes, b"com ", *to)?;
            put_with(bytes, b" on ", *chan)
        }
        Deed::If { yes: true } => bytes.extend_from_slice(b"if yes"),
        Deed::If { yes: false } => bytes.extend_from_slice(b"if no"),
    }
}

/// Numbers, each behind a space.
fn put_all(bytes: &mut Vec<u8>, numbers: &[u32]) -> Result<(), NoMemory>
    ensures { OnOk result (bytes.new.items ≡ bytes.old.items ++ spaced numbers.now) }
{
    for number in numbers {
        put_with(bytes, b" ", *number)?;
    }
    Ok(())
}

/// A word and the name of a gate.
fn put_op(bytes: &mut Vec<u8>, word: &[u8], op: Op) -> Result<(), NoMemory>
    ensures { OnOk result (bytes.new.items ≡ bytes.old.items ++ (word.now ++ op_text op)) }
{
    bytes.extend_from_slice(word)?;
    bytes.extend_from_slice(op.name().as_bytes())
}

/// A word and a number.
fn put_with(bytes: &mut Vec<u8>, word: &[u8], number: u32) -> Result<(), NoMemory>
    ensures { OnOk result (bytes.new.items ≡ bytes.old.items ++ (word.now ++ decimal number)) }
{
    bytes.extend_from_slice(word)?;
    put_number(bytes, number)
}

/// A number. One of one digit is its byte.
fn put_number(bytes: &mut Vec<u8>, number: u32) -> Result<(), NoMemory>
    ensures { OnOk result (bytes.new.items ≡ bytes.old.items ++ decimal number) }
{
    if number < 10 {
        bytes.push(b'0' + number as u8)?;
        return Ok(());
    }
    bytes.extend_from_slice(Buffer::new().format(number).as_bytes())
}
