//! Values of names and of redexes.

ghost use Rattle.std.specs.Prelude.{◌≡◌, ◌<◌, length, true};
ghost use Rattle.cqp_results.specs.Results as results;
ghost use Rattle.cqp_standing.specs.Stands.{has_rising_names, val_of};

use cqp_parts::Bind;
use cqp_syntax::Val;

/// The value of a name. Names rise.
pub(crate) fn find(items: &[Bind], name: u32) -> Option<Val>
    requires { has_rising_names items.now ≡ true }
    ensures { result ≡ val_of name items.now }
{
    let at = items.partition_point(|bind| bind.name < name);
    if at < items.len() && items[at].name == name {
        Some(items[at].val)
    } else {
        None
    }
}

/// The last value but so many.
pub(crate) fn last_but(vals: &[Val], skip: usize) -> Val
    requires { skip < length vals.now }
    ensures { result ≡ results.last_but skip vals.now }
{
    vals[vals.len() - 1 - skip]
}
