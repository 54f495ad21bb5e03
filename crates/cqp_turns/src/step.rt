//! What a part does next.

ghost use Rattle.std.specs.Prelude.{◌≡◌, ◌<◌, [], length, map, true, Some, None, IsSome, IfOk};
ghost use Rattle.std.specs.List.{AllByRecursion};
ghost use Rattle.cqp_syntax.specs.Listing.{Listing, process_at, expr_at};
ghost use Rattle.cqp_syntax.specs.Terms.{expr};
ghost use Rattle.cqp_cells.specs.Redex.{exprs_of};
ghost use Rattle.cqp_parts.specs.Parts.{process_of_part};
ghost use Rattle.cqp_redexes.specs.Evaluation.{AreRedexes};
ghost use Rattle.cqp_results.specs.Results.{operand, operands, count_of};
ghost use Rattle.cqp_syntax.specs.Measures.{expr_steps};
ghost use Rattle.cqp_standing.specs.Stands.{AreOperandsAt, IsOperandAt, IsRedexAt, Stands};
ghost use Rattle.cqp_standing.specs.Stands.{has_rising_names, val_of, val_or_unit};
ghost use Rattle.cqp_parts.specs.Bound.{expr_bound};
ghost use Rattle.cqp_turns.specs.Turns.{turn_in, IsTurn, qubit_in};

use crate::pick::{chan, gate, number, picked, qubit};
use crate::turn::Turn;
use crate::values::{find, last_but};
use cqp_parts::{Env, Part, Vals};
use cqp_redexes::Redexes;
use cqp_syntax::{Names, NoMemory, Node, Proc, Val};
use std::alloc::Global;

/// What a part does next, where its process has a turn: so it does where no operand is wrong.
pub fn turn_of(proc: &Proc, redexes: &Redexes, alloc: Global, part: &Part) -> Result<Turn, NoMemory>
    requires redexes { AreRedexes proc.now redexes.now }
    requires stands { Stands proc.now part.now }
    requires takes { IsSome (turn_in (process_of_part proc.now part.now)) }
    ensures exact { IfOk result (λ turn.
        turn_in (process_of_part proc.now part.now) ≡ Some turn) }
    ensures says { IfOk result (λ turn. IsTurn (process_of_part proc.now part.now) turn) }
{
    match redexes.redex(part.node, part.vals.len()) {
        Some(redex) => redex_turn(proc, redexes, alloc, part, redex),
        None => prefix_turn(proc, redexes, alloc, part),
    }
}

/// The turn of a part whose next redex is node m.
fn redex_turn(
    proc: &Proc,
    redexes: &Redexes,
    alloc: Global,
    part: &Part,
    m: u32,
) -> Result<Turn, NoMemory>
    requires redexes { AreRedexes proc.now redexes.now }
    requires stands { Stands proc.now part.now }
    requires takes { IsSome (turn_in (process_of_part proc.now part.now)) }
    requires redex { IsRedexAt proc.now part.now m }
    ensures { IfOk result (λ turn. turn_in (process_of_part proc.now part.now) ≡ Some turn) }
{
    match proc.node(m) {
        Node::Add { left, right } => {
            let skip = redexes.count(*right) as usize;
            let u = number(value(proc, part, *left, skip));
            let w = number(value(proc, part, *right, 0));
            Ok(Turn::Add {
                v: u.wrapping_add(w),
            })
        }
        Node::Sig { of } => Ok(Turn::Pick {
            op: picked(number(value(proc, part, *of, 0))),
        }),
        Node::Apply { qubits, op } => Ok(Turn::Gate {
            op: gate(value(proc, part, *op, 0)),
            qubits: qubits_of(alloc, &part.env, qubits.as_slice())?,
        }),
        Node::Measure { qubits } => Ok(Turn::Measure {
            qubits: qubits_of(alloc, &part.env, qubits.as_slice())?,
        }),
        _ => Ok(Turn::Act),
    }
}

/// The turn of a part whose redexes are all reduced.
fn prefix_turn(proc: &Proc, redexes: &Redexes, alloc: Global, part: &Part) -> Result<Turn, NoMemory>
    requires redexes { AreRedexes proc.now redexes.now }
    requires stands { Stands proc.now part.now }
    requires takes { IsSome (turn_in (process_of_part proc.now part.now)) }
    requires done { length part.now.vals
        ≡ count_of (exprs_of (process_at proc.now part.now.node)) }
    ensures { IfOk result (λ turn. turn_in (process_of_part proc.now part.now) ≡ Some turn) }
{
    match proc.node(part.node) {
        Node::New { .. } => Ok(Turn::New),
        Node::Qbit { .. } => Ok(Turn::Qbit),
        Node::In { chan: name, .. } => Ok(Turn::Receive {
            chan: chan(name_value(&part.env, *name)),
        }),
        Node::Out {
            chan: name,
            args,
            ..
        } => Ok(Turn::Send {
            chan: chan(name_value(&part.env, *name)),
            vals: sent(proc, redexes, alloc, part, args.as_slice())?,
        }),
        Node::If { left, right, .. } => {
            let skip = redexes.count(*right) as usize;
            let u = number(value(proc, part, *left, skip));
            let w = number(value(proc, part, *right, 0));
            Ok(Turn::If { yes: u == w })
        }
        _ => Ok(Turn::Act),
    }
}

/// The value of an expression behind which so many results stand.
pub(crate) fn value(proc: &Proc, part: &Part, n: u32, skip: usize) -> Val
    requires rising { has_rising_names part.now.env ≡ true }
    requires operand { IsOperandAt proc.now part.now n skip }
    ensures { result ≡ operand part.now.vals skip (expr_bound part.now.env (expr_at proc.now n)) }
{
    match proc.node(n) {
        Node::Num { v } => Val::Num { v: *v },
        Node::Unit => Val::Unit,
        Node::Gate { op } => Val::Gate { op: *op },
        Node::Name { name } => name_value(&part.env, *name),
        _ => last_but(part.vals.as_slice(), skip),
    }
}

/// The value of a name, or `unit` where it has none.
pub(crate) fn name_value(env: &Env, name: u32) -> Val
    requires { has_rising_names env.now ≡ true }
    ensures { result ≡ val_or_unit (val_of name env.now) }
{
    match find(env.as_slice(), name) {
        Some(val) => val,
        None => Val::Unit,
    }
}

/// The qubits of names.
fn qubits_of(alloc: Global, env: &Env, names: &[u32]) -> Result<Names, NoMemory>
    requires { has_rising_names env.now ≡ true }
    ensures { IfOk result (λ qs. qs
        ≡ map (λ x. qubit_in (val_or_unit (val_of x env.now))) names.now) }
{
    let mut qubits = Names::new(alloc);
    for name in names {
        qubits.push(qubit(name_value(env, *name)))?;
    }
    Ok(qubits)
}

/// The values of the arguments.
fn sent(
    proc: &Proc,
    redexes: &Redexes,
    alloc: Global,
    part: &Part,
    args: &[u32],
) -> Result<Vals, NoMemory>
    requires redexes { AreRedexes proc.now redexes.now }
    requires rising { has_rising_names part.now.env ≡ true }
    requires are { AreOperandsAt proc.now part.now args.now }
    requires done { length part.now.vals
        ≡ count_of (map (λ e. expr_at proc.now e) args.now) }
    ensures { IfOk result (λ vals. vals ≡ operands part.now.vals
        (map (λ e. expr_bound part.now.env (expr_at proc.now e)) args.now)) }
{
    let mut vals = Vals::new(alloc);
    let mut left = part.vals.len();
    for arg in args {
        left -= redexes.count(*arg) as usize;
        vals.push(value(proc, part, *arg, left))?;
    }
    Ok(vals)
}
