//! What parts do in turn, and where they go on, worked out by hand.

ghost use Rattle.std.specs.Prelude.{◌≡◌};
ghost use Rattle.cqp_syntax.specs.declared.val.Val.TheVariants as val;

use crate::processes::{nothing_told, received_told, shared_told, sides_told, sums_told};
use crate::steps::{
    all_steps, no_steps, receipt_steps, sent_steps, start_steps, turned_steps, yes_steps,
};
use crate::walks::gives;
use cqp_syntax::Val;
use std::test::Fail;

/// A number as a value.
fn num(v: u32) -> Val
    ensures { result ≡ val.Num v }
{
    Val::Num { v }
}

#[test]
fn nothing_opens_at_no_part(rt: HostRuntime) -> Result<(), Fail> {
    let alloc = rt.alloc();
    let nothing = nothing_told(alloc)?;
    assert!(rt; gives(alloc, nothing, &[], Vec::new(alloc), "")?);
    Ok(())
}

#[test]
fn a_process_opens_at_its_prefixes_from_left_to_right(rt: HostRuntime) -> Result<(), Fail> {
    let alloc = rt.alloc();
    let sides = sides_told(alloc)?;
    assert!(rt; gives(alloc, sides, &[], Vec::new(alloc), "at 2 | at 6 | at 8")?);
    Ok(())
}

#[test]
fn a_part_makes_applies_adds_picks_measures_and_sends(rt: HostRuntime) -> Result<(), Fail> {
    let alloc = rt.alloc();
    let told = sums_told(alloc)?;
    let steps = all_steps(alloc)?;
    // The control is the second qubit, 4294967295 + 3 wraps to 2, and 2 picks Z.
    let wanted = "new; qbit; qbit; gate CNot 1 0; act; add 2; pick Z; gate Z 0; act; \
        measure 1 0; add 3; add 7; add 10; send on 0: 2 10, sends 0; ";
    assert!(rt; gives(alloc, told, &[], steps, wanted)?);
    Ok(())
}

#[test]
fn values_are_received_in_order(rt: HostRuntime) -> Result<(), Fail> {
    let alloc = rt.alloc();
    let told = received_told(alloc)?;
    let steps = receipt_steps(alloc)?;
    let wanted = "new; receive on 0, receives 0; at 2 1: 5 2: 3";
    assert!(rt; gives(alloc, told, &[num(5), num(3)], steps, wanted)?);
    Ok(())
}

#[test]
fn equal_sums_take_the_first_branch(rt: HostRuntime) -> Result<(), Fail> {
    let alloc = rt.alloc();
    let told = received_told(alloc)?;
    let steps = yes_steps(alloc)?;
    let wanted = "new; receive on 0, receives 0; add 6; add 6; if true; act; ";
    assert!(rt; gives(alloc, told, &[num(5), num(3)], steps, wanted)?);
    Ok(())
}

#[test]
fn other_sums_take_the_second_branch(rt: HostRuntime) -> Result<(), Fail> {
    let alloc = rt.alloc();
    let told = received_told(alloc)?;
    let steps = no_steps(alloc)?;
    let wanted = "new; receive on 0, receives 0; add 4; add 8; if false; ";
    assert!(rt; gives(alloc, told, &[num(3), num(5)], steps, wanted)?);
    Ok(())
}

#[test]
fn each_part_keeps_its_own_names(rt: HostRuntime) -> Result<(), Fail> {
    let alloc = rt.alloc();
    let told = shared_told(alloc)?;
    let steps = start_steps(alloc)?;
    let wanted = "new; qbit; qbit; at 4 0: c0 1: q0 2: q1 | at 14 0: c0 | at 16";
    assert!(rt; gives(alloc, told, &[], steps, wanted)?);
    Ok(())
}

#[test]
fn a_sender_drops_what_it_sent(rt: HostRuntime) -> Result<(), Fail> {
    let alloc = rt.alloc();
    let told = shared_told(alloc)?;
    let steps = sent_steps(alloc)?;
    let wanted = "new; qbit; qbit; send on 0: q0, sends 0; at 7 2: q1 | at 11 0: c0";
    assert!(rt; gives(alloc, told, &[], steps, wanted)?);
    Ok(())
}

#[test]
fn a_part_is_before_h_and_gets_unit(rt: HostRuntime) -> Result<(), Fail> {
    let alloc = rt.alloc();
    let told = shared_told(alloc)?;
    let steps = turned_steps(alloc)?;
    let wanted = "new; qbit; qbit; send on 0: q0, sends 0; gate H 1, is H; at 7 2: q1 got unit";
    assert!(rt; gives(alloc, told, &[], steps, wanted)?);
    Ok(())
}
