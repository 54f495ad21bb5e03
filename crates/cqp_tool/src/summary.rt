//! The summary of a run.

ghost use Rattle.std.specs.Prelude.{◌≡◌, IfOk};
ghost use Rattle.cqp_tool.specs.Summaries as summaries;
ghost use Rattle.cqp_tool.specs.Summaries.{count_of};

use crate::NoMemory;
use cqp_outside::Bytes;
use cqp_trace::{Deed, Entry, Trace};
use std::alloc::Global;

/// The six lines that sum up the run of a generated program.
pub(crate) fn summary_text(alloc: Global, rounds: u32, trace: &Trace) -> Result<Bytes, NoMemory>
    ensures { IfOk result (λ bytes. bytes ≡ summaries.summary_text rounds trace.now) }
{
    let entries = trace.entries.as_slice();
    let mut text = String::new(alloc);
    writeln!(text, "gen {rounds}")?;
    writeln!(text, "entries {}", entries.len())?;
    writeln!(text, "gates {}", gates(entries))?;
    writeln!(text, "coms {}", coms(entries))?;
    writeln!(text, "measures {}", measurements(entries))?;
    writeln!(text, "weight {}", trace.weight)?;
    Ok(Bytes::from_vec(text.into_bytes()))
}

// How many entries apply a gate.
fn gates(entries: &[Entry]) -> usize
    ensures { result ≡ count_of summaries.is_gate entries.now }
{
    entries.iter().filter(|entry| is_gate(&entry.deed)).count()
}

// How many are communications.
fn coms(entries: &[Entry]) -> usize
    ensures { result ≡ count_of summaries.is_com entries.now }
{
    entries.iter().filter(|entry| is_com(&entry.deed)).count()
}

// How many are measurements.
fn measurements(entries: &[Entry]) -> usize
    ensures { result ≡ count_of summaries.is_measurement entries.now }
{
    entries
        .iter()
        .filter(|entry| is_measurement(&entry.deed))
        .count()
}

// Whether the deed applies a gate.
fn is_gate(deed: &Deed) -> bool
    ensures { result ≡ summaries.is_gate deed.now }
{
    matches!(deed, Deed::Gate { .. })
}

// Whether it is a communication.
fn is_com(deed: &Deed) -> bool
    ensures { result ≡ summaries.is_com deed.now }
{
    matches!(deed, Deed::Com { .. })
}

// Whether it is a measurement.
fn is_measurement(deed: &Deed) -> bool
    ensures { result ≡ summaries.is_measurement deed.now }
{
    matches!(deed, Deed::Measure { .. })
}
