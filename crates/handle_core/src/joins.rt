//! How the hand of another caller is joined into one of value elements. There is a function for each size: the check of
//! one function over all pairs of sizes does not end.
ghost use Rattle.std.specs.Prelude.{◌≡◌, IfErr, OnOk, OnErr};
ghost use Rattle.caller_core.specs.Caller.{JoinsCallers};
ghost use Rattle.handle_core.specs.Held.{caller_of, words_of};

use crate::held::AnyCaller;
use caller_core::Caller;

fn join_one(caller: &mut Caller<[u64; 1]>, other: AnyCaller) -> Result<(), AnyCaller>
    requires same { (caller_of other).vector ≡ caller.old.vector }
    ensures joined { OnOk result (JoinsCallers caller.old (caller_of other) caller.new) }
    ensures back { IfErr result (λ back. back ≡ other) }
    ensures unchanged { OnErr result (caller.new ≡ caller.old) }
{
    match other {
        AnyCaller::One(other) => {
            caller.join(other);
            Ok(())
        }
        other => Err(other),
    }
}

fn join_two(caller: &mut Caller<[u64; 2]>, other: AnyCaller) -> Result<(), AnyCaller>
    requires same { (caller_of other).vector ≡ caller.old.vector }
    ensures joined { OnOk result (JoinsCallers caller.old (caller_of other) caller.new) }
    ensures back { IfErr result (λ back. back ≡ other) }
    ensures unchanged { OnErr result (caller.new ≡ caller.old) }
{
    match other {
        AnyCaller::Two(other) => {
            caller.join(other);
            Ok(())
        }
        other => Err(other),
    }
}

fn join_three(caller: &mut Caller<[u64; 3]>, other: AnyCaller) -> Result<(), AnyCaller>
    requires same { (caller_of other).vector ≡ caller.old.vector }
    ensures joined { OnOk result (JoinsCallers caller.old (caller_of other) caller.new) }
    ensures back { IfErr result (λ back. back ≡ other) }
    ensures unchanged { OnErr result (caller.new ≡ caller.old) }
{
    match other {
        AnyCaller::Three(other) => {
            caller.join(other);
            Ok(())
        }
        other => Err(other),
    }
}

fn join_four(caller: &mut Caller<[u64; 4]>, other: AnyCaller) -> Result<(), AnyCaller>
    requires same { (caller_of other).vector ≡ caller.old.vector }
    ensures joined { OnOk result (JoinsCallers caller.old (caller_of other) caller.new) }
    ensures back { IfErr result (λ back. back ≡ other) }
    ensures unchanged { OnErr result (caller.new ≡ caller.old) }
{
    match other {
        AnyCaller::Four(other) => {
            caller.join(other);
            Ok(())
        }
        other => Err(other),
    }
}

fn join_six(caller: &mut Caller<[u64; 6]>, other: AnyCaller) -> Result<(), AnyCaller>
    requires same { (caller_of other).vector ≡ caller.old.vector }
    ensures joined { OnOk result (JoinsCallers caller.old (caller_of other) caller.new) }
    ensures back { IfErr result (λ back. back ≡ other) }
    ensures unchanged { OnErr result (caller.new ≡ caller.old) }
{
    match other {
        AnyCaller::Six(other) => {
            caller.join(other);
            Ok(())
        }
        other => Err(other),
    }
}

fn join_eight(caller: &mut Caller<[u64; 8]>, other: AnyCaller) -> Result<(), AnyCaller>
    requires same { (caller_of other).vector ≡ caller.old.vector }
    ensures joined { OnOk result (JoinsCallers caller.old (caller_of other) caller.new) }
    ensures back { IfErr result (λ back. back ≡ other) }
    ensures unchanged { OnErr result (caller.new ≡ caller.old) }
{
    match other {
        AnyCaller::Eight(other) => {
            caller.join(other);
            Ok(())
        }
        other => Err(other),
    }
}

// Joins the other hand's runs and shares, unless its elements have another size.
pub(crate) fn join(any: &mut AnyCaller, other: AnyCaller) -> Result<(), AnyCaller>
    requires same { (caller_of other).vector ≡ (caller_of any.old).vector }
    ensures joined { OnOk result
        (JoinsCallers (caller_of any.old) (caller_of other) (caller_of any.new)) }
    ensures words { words_of any.new ≡ words_of any.old }
    ensures back { IfErr result (λ back. back ≡ other) }
    ensures unchanged { OnErr result (any.new ≡ any.old) }
{
    match any {
        AnyCaller::One(caller) => join_one(caller, other),
        AnyCaller::Two(caller) => join_two(caller, other),
        AnyCaller::Three(caller) => join_three(caller, other),
        AnyCaller::Four(caller) => join_four(caller, other),
        AnyCaller::Six(caller) => join_six(caller, other),
        AnyCaller::Eight(caller) => join_eight(caller, other),
    }
}
