//! What follows from the definition of equality alone. No call does anything.
ghost use Rattle.quiet_core.specs.QuietList.{EqualMembersAreEqual};

/// States that two lists with the same members are equal, whatever their limits, layouts and capacities.
pub fn equal_members_are_equal<T: Eq>()
    ensures { EqualMembersAreEqual T.eq }
{}
