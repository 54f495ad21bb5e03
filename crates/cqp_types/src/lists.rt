//! Lists of names and arguments against types, from the last to the first.

ghost use Rattle.std.specs.Prelude.{◌≡◌, ◌<◌, length, map};
ghost use Rattle.std.specs.List.{AllByRecursion, list_all};
ghost use Rattle.cqp_syntax.specs.TypeTrees.{type_at, trees_at, same_types};
ghost use Rattle.cqp_syntax.specs.Trees.{named};
ghost use Rattle.cqp_syntax.specs.Listing.{type_of_name, expr_at};
ghost use Rattle.cqp_types.specs.Types.{types_of};
ghost use Rattle.cqp_types.specs.Faults as faults;
ghost use Rattle.cqp_types.specs.Tables.{binder_in};

use crate::forms::{has_type, is_qubit, name_has_type};
use cqp_syntax::Proc;

/// Whether each of the names has type Qbit.
pub(crate) fn are_qubits(given: &Proc, names: &[u32]) -> bool
    requires { AllByRecursion (λ x. x < length given.now.ty_of) names.now }
    ensures { result ≡ list_all (faults.is_qubit (type_of_name given.now)) (map named names.now) }
{
    let mut all = true;
    let count = names.len();
    for k in 0..count {
        let first = is_qubit(given, names[count - 1 - k]);
        all = first && all;
    }
    all
}

/// Whether the parameters have the types with these numbers, which are as many.
pub(crate) fn params_fit(given: &Proc, params: &[u32], of: &[u32]) -> bool
    requires params { AllByRecursion (λ x. x < length given.now.ty_of) params.now }
    requires of { AllByRecursion (λ t. t < length given.now.types) of.now }
    requires count { length params.now ≡ length of.now }
    ensures { result ≡ same_types (types_of (map (binder_in given.now) params.now))
        (trees_at (type_at given.now.types) of.now) }
{
    let mut all = true;
    let count = params.len();
    for k in 0..count {
        let i = count - 1 - k;
        let first = name_has_type(given, params[i], of[i]);
        all = first && all;
    }
    all
}

/// Whether the arguments have the types with these numbers, which are as many.
pub(crate) fn args_fit(given: &Proc, args: &[u32], of: &[u32]) -> bool
    requires args { AllByRecursion (λ e. e < length given.now.nodes) args.now }
    requires of { AllByRecursion (λ t. t < length given.now.types) of.now }
    requires count { length args.now ≡ length of.now }
    ensures { result ≡ same_types
        (faults.form_types (type_of_name given.now) (map (expr_at given.now) args.now))
        (trees_at (type_at given.now.types) of.now) }
{
    let mut all = true;
    let count = args.len();
    for k in 0..count {
        let i = count - 1 - k;
        let first = has_type(given, args[i], of[i]);
        all = first && all;
    }
    all
}
