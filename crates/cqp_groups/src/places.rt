//! Lists of qubits: the places of some in a group's list, its least, and those that are due.

ghost use Rattle.std.specs.Prelude.{◌≡◌, ◌≤◌, [], length, IfOk};
ghost use Rattle.cqp_machine.specs.Factors as words;

use cqp_syntax::Names;
use cqp_vector::NoMemory;
use smallvec::SmallVec;
use std::alloc::Global;

/// Places of qubits in a list. Those of a gate stand in the value itself.
pub type Places = SmallVec<u32, 4>;

/// The place of a qubit in the list; where it isn't there, the list's length.
pub(crate) fn index_of(qubits: &[u32], qubit: u32) -> u32
    requires few { length qubits.now ≤ 12 }
    ensures { result ≡ words.index_of qubit qubits.now }
{
    let mut index = 0;
    for q in qubits {
        if *q == qubit {
            return index;
        }
        index += 1;
    }
    index
}

/// The places of some qubits.
pub(crate) fn places_in(alloc: Global, qubits: &[u32], some: &[u32]) -> Result<Places, NoMemory>
    requires few { length qubits.now ≤ 12 }
    ensures { IfOk result (λ v. v.items ≡ words.places_in qubits.now some.now) }
{
    let mut places = Places::new(alloc);
    for qubit in some {
        places.push(index_of(qubits, *qubit))?;
    }
    Ok(places)
}

/// The least of a list's numbers.
pub(crate) fn least_qubit(qubits: &[u32]) -> u32
    ensures { result ≡ words.least_qubit qubits.now }
{
    let mut least = 0;
    for i in (0..qubits.len()).rev() {
        let q = qubits[i];
        if i + 1 == qubits.len() || q < least {
            least = q;
        }
    }
    least
}

/// The measured qubits, where the group has others or several; else none, in their memory.
pub(crate) fn due_of(qubits: &[u32], measured: Names) -> Names
    ensures { result ≡ words.due_after qubits.now measured }
{
    if 1 < qubits.len() {
        measured
    } else {
        emptied(measured)
    }
}

/// The empty list, in the memory of these names.
fn emptied(names: Names) -> Names
    ensures { result ≡ [] }
{
    let mut names = names;
    names.clear();
    names
}
