//! Numbers of a trace that are in range since they are numbers of 32 bits. Only of a number that is
//! read is that known.

ghost use Rattle.std.specs.Prelude.{◌≡◌, true};
ghost use Rattle.std.specs.List.{list_all};
ghost use Rattle.cqp_trace.specs.Writable.{is_number, is_writable_end};
ghost use Rattle.cqp_cells.specs.InRange.{is_deed_in_range, is_in_range};

use cqp_trace::{Deed, End, Entry};

/// The numbers of entries are in range.
pub(crate) fn entries_in_range(entries: &[Entry])
    ensures { list_all is_in_range entries.now ≡ true }
{
    for entry in entries {
        in_range(entry.part);
        deed_in_range(&entry.deed);
    }
}

/// The number of an end is in range.
pub(crate) fn end_in_range(end: End)
    ensures { is_writable_end end ≡ true }
{
    match end {
        End::Done { left } => in_range(left),
        End::Stopped { part } => in_range(part),
    }
}

// So are those of a deed.
fn deed_in_range(deed: &Deed)
    ensures { is_deed_in_range deed.now ≡ true }
{
    match deed {
        Deed::New { c } => in_range(*c),
        Deed::Com { to, chan } => {
            in_range(*to);
            in_range(*chan);
        }
        _ => (),
    }
}

// So is a number.
fn in_range(number: u32)
    ensures { is_number number ≡ true }
{
    prove!(number <= u32::MAX);
}
