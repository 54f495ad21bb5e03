//! Lines of output.

ghost use Rattle.std.specs.Prelude.{◌≡◌, IfOk};
ghost use Rattle.cqp_tool.specs.Lines.{accepted_line, fault_text, line_at, need_line};
ghost use Rattle.cqp_tool.specs.Traces.{counted_line, refused_line};

use crate::NoMemory;
use cqp_outside::Bytes;
use cqp_types::Kind;
use std::alloc::Global;

/// The most bytes of a program text.
pub(crate) const TEXT_LIMIT: usize = 65_536;

/// The line that tells something at an offset.
pub(crate) fn line_at(alloc: Global, what: &str, at: u32) -> Result<Bytes, NoMemory>
    ensures { IfOk result (λ bytes. bytes ≡ line_at what.now at) }
{
    let text = format!(in alloc; "{what} at {at}\n")?;
    Ok(Bytes::from_vec(text.into_bytes()))
}

/// The line of a trace that is refused at a line of its text.
pub(crate) fn refused_line(alloc: Global, what: &str, at: usize) -> Result<Bytes, NoMemory>
    ensures { IfOk result (λ bytes. bytes ≡ refused_line what.now at) }
{
    let text = format!(in alloc; "trace {what} at line {at}\n")?;
    Ok(Bytes::from_vec(text.into_bytes()))
}

/// The line of a trace that is lawful and has so many entries.
pub(crate) fn entries_line(alloc: Global, entries: u32) -> Result<Bytes, NoMemory>
    ensures { IfOk result (λ bytes. bytes ≡ counted_line entries) }
{
    let text = format!(in alloc; "accepted entries {entries}\n")?;
    Ok(Bytes::from_vec(text.into_bytes()))
}

/// The line of a text that is accepted.
pub(crate) fn accepted_line(alloc: Global, need: u32, size: u32) -> Result<Bytes, NoMemory>
    ensures { IfOk result (λ bytes. bytes ≡ accepted_line need size) }
{
    let text = format!(in alloc; "accepted qubits {need} size {size}\n")?;
    Ok(Bytes::from_vec(text.into_bytes()))
}

/// The line of a process that needs too many qubits.
pub(crate) fn need_line(alloc: Global, need: u32) -> Result<Bytes, NoMemory>
    ensures { IfOk result (λ bytes. bytes ≡ need_line need) }
{
    let text = format!(in alloc; "limit qubits 12 needs {need}\n")?;
    Ok(Bytes::from_vec(text.into_bytes()))
}

/// What the line of a fault says before its offset.
pub(crate) fn fault_text(kind: Kind) -> &'static str
    ensures { result.now ≡ fault_text kind }
{
    match kind {
        Kind::Mismatch => "type Mismatch",
        Kind::NotChannel => "type NotChannel",
        Kind::Count => "type Count",
        Kind::OperandTwice => "type OperandTwice",
        Kind::SplitTwice => "type SplitTwice",
        Kind::SentAndUsed => "type SentAndUsed",
    }
}
