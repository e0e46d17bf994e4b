//! How the hand of another caller is joined into one of opaque elements. There is a function for each size: the check
//! of one function over all pairs of sizes does not end.
ghost use Rattle.std.specs.Prelude.{◌≡◌, IfErr, OnOk, OnErr};
ghost use Rattle.caller_core.specs.Caller.{JoinsCallers};
ghost use Rattle.handle_core.specs.Held.{opaque_of, opaque_words};

use crate::held::AnyOpaque;
use caller_core::Caller;
use opaque_core::Opaque;

fn join_one(caller: &mut Caller<Opaque<1>>, other: AnyOpaque) -> Result<(), AnyOpaque>
    requires same { (opaque_of other).vector ≡ caller.old.vector }
    ensures joined { OnOk result (JoinsCallers caller.old (opaque_of other) caller.new) }
    ensures back { IfErr result (λ back. back ≡ other) }
    ensures unchanged { OnErr result (caller.new ≡ caller.old) }
{
    match other {
        AnyOpaque::One(other) => {
            caller.join(other);
            Ok(())
        }
        other => Err(other),
    }
}

fn join_two(caller: &mut Caller<Opaque<2>>, other: AnyOpaque) -> Result<(), AnyOpaque>
    requires same { (opaque_of other).vector ≡ caller.old.vector }
    ensures joined { OnOk result (JoinsCallers caller.old (opaque_of other) caller.new) }
    ensures back { IfErr result (λ back. back ≡ other) }
    ensures unchanged { OnErr result (caller.new ≡ caller.old) }
{
    match other {
        AnyOpaque::Two(other) => {
            caller.join(other);
            Ok(())
        }
        other => Err(other),
    }
}

fn join_three(caller: &mut Caller<Opaque<3>>, other: AnyOpaque) -> Result<(), AnyOpaque>
    requires same { (opaque_of other).vector ≡ caller.old.vector }
    ensures joined { OnOk result (JoinsCallers caller.old (opaque_of other) caller.new) }
    ensures back { IfErr result (λ back. back ≡ other) }
    ensures unchanged { OnErr result (caller.new ≡ caller.old) }
{
    match other {
        AnyOpaque::Three(other) => {
            caller.join(other);
            Ok(())
        }
        other => Err(other),
    }
}

fn join_four(caller: &mut Caller<Opaque<4>>, other: AnyOpaque) -> Result<(), AnyOpaque>
    requires same { (opaque_of other).vector ≡ caller.old.vector }
    ensures joined { OnOk result (JoinsCallers caller.old (opaque_of other) caller.new) }
    ensures back { IfErr result (λ back. back ≡ other) }
    ensures unchanged { OnErr result (caller.new ≡ caller.old) }
{
    match other {
        AnyOpaque::Four(other) => {
            caller.join(other);
            Ok(())
        }
        other => Err(other),
    }
}

fn join_six(caller: &mut Caller<Opaque<6>>, other: AnyOpaque) -> Result<(), AnyOpaque>
    requires same { (opaque_of other).vector ≡ caller.old.vector }
    ensures joined { OnOk result (JoinsCallers caller.old (opaque_of other) caller.new) }
    ensures back { IfErr result (λ back. back ≡ other) }
    ensures unchanged { OnErr result (caller.new ≡ caller.old) }
{
    match other {
        AnyOpaque::Six(other) => {
            caller.join(other);
            Ok(())
        }
        other => Err(other),
    }
}

fn join_eight(caller: &mut Caller<Opaque<8>>, other: AnyOpaque) -> Result<(), AnyOpaque>
    requires same { (opaque_of other).vector ≡ caller.old.vector }
    ensures joined { OnOk result (JoinsCallers caller.old (opaque_of other) caller.new) }
    ensures back { IfErr result (λ back. back ≡ other) }
    ensures unchanged { OnErr result (caller.new ≡ caller.old) }
{
    match other {
        AnyOpaque::Eight(other) => {
            caller.join(other);
            Ok(())
        }
        other => Err(other),
    }
}

// Joins the other hand's runs and shares, unless its elements have another size.
pub(crate) fn join(any: &mut AnyOpaque, other: AnyOpaque) -> Result<(), AnyOpaque>
    requires same { (opaque_of other).vector ≡ (opaque_of any.old).vector }
    ensures joined { OnOk result
        (JoinsCallers (opaque_of any.old) (opaque_of other) (opaque_of any.new)) }
    ensures words { opaque_words any.new ≡ opaque_words any.old }
    ensures back { IfErr result (λ back. back ≡ other) }
    ensures unchanged { OnErr result (any.new ≡ any.old) }
{
    match any {
        AnyOpaque::One(caller) => join_one(caller, other),
        AnyOpaque::Two(caller) => join_two(caller, other),
        AnyOpaque::Three(caller) => join_three(caller, other),
        AnyOpaque::Four(caller) => join_four(caller, other),
        AnyOpaque::Six(caller) => join_six(caller, other),
        AnyOpaque::Eight(caller) => join_eight(caller, other),
    }
}
