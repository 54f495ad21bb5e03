//! The numbers of a node's parts, found from the sizes of the fragments before it.

ghost use Rattle.std.specs.Prelude.{◌≡◌, ℕ, ◌+◌, ◌≤◌, ◌++◌, length, take, drop, reverse, OnOk};
ghost use Rattle.cqp_postorder.specs.Subtrees.{Subtrees, EndIn, sizes_of, numbers_of};

use crate::NoMemory;
use crate::sizes::size_before;

/// Puts the numbers of so many parts behind others, from the first to the last. The sizes end in
/// those of their fragments, and their nodes have the numbers from `first` up to `end`.
pub(crate) fn find_parts(
    numbers: &mut Vec<u32>,
    sizes: &[u32],
    first: u32,
    end: u32,
    count: usize,
) -> Result<(), NoMemory>
    requires { (ts : Subtrees) × EndIn sizes.now count ts × (first + sizes_of ts ≡ end) }
    ensures { (ts : Subtrees) → EndIn sizes.now count ts → first + sizes_of ts ≡ end
        → OnOk result (numbers.new.items ≡ numbers.old.items ++ numbers_of first ts) }
{
    match count {
        0 => {}
        1 => numbers.push(first)?,
        2 => {
            numbers.push(first)?;
            numbers.push(end - size_before(sizes, 0))?;
        }
        _ => find_many(numbers, sizes, end, count)?,
    }
    Ok(())
}

/// The same for any count. It goes over the parts from the last to the first.
fn find_many(numbers: &mut Vec<u32>, sizes: &[u32], end: u32, count: usize) -> Result<(), NoMemory>
    requires { (first : ℕ) × (ts : Subtrees) × EndIn sizes.now count ts
        × (first + sizes_of ts ≡ end) }
    ensures { (first : ℕ) (ts : Subtrees) → EndIn sizes.now count ts → first + sizes_of ts ≡ end
        → OnOk result (numbers.new.items ≡ numbers.old.items ++ numbers_of first ts) }
{
    let kept = numbers.len();
    let mut total = 0;
    for _ in 0..count {
        total += size_before(sizes, total);
        numbers.push(end - total)?;
    }
    turn(numbers.as_mut_slice(), kept);
    Ok(())
}

/// Turns the numbers behind the first so many round.
fn turn(numbers: &mut [u32], first: usize)
    requires { first ≤ length numbers.old }
    ensures { numbers.new ≡ take first numbers.old ++ reverse (drop first numbers.old) }
{
    numbers[first..].reverse();
}
