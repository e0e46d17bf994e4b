// What the rule of a table tells of two of its seats.
ghost use Rattle.std.specs.Prelude.{◌≡◌, [], ◌∷◌};
ghost use Rattle.tie_core.specs.Permits.{TellsOfBoth};

use crate::desk::Desk;
use atomic_table::{Badge, Shared, TableRule};

/// Says what a rule tells of two seats, by their views.
pub trait PairLaw<V> {
    ghost tells: { V → V → Type 0 };
}

impl<S, V, K, P: TableRule<S, V, K>> Desk<S, V, K, P> {
    /// Shows a proof of what the rule tells of two seats. Both stay as they are, and no step is taken.
    pub fn compare<M: PairLaw<V>>(
        table: &Shared<S, V, K, P>,
        desk: &Desk<S, V, K, P>,
        badge: &mut Badge<V>,
        other: &mut Badge<V>,
    )
        requires table { (desk.now.table_id ≡ table.now.table_id)
            × (badge.old.table_id ≡ table.now.table_id)
            × (other.old.table_id ≡ table.now.table_id) }
        requires law { (v : V) × (u : V)
            × (badge.old.views ≡ v ∷ []) × (other.old.views ≡ u ∷ [])
            × TellsOfBoth (P.holds desk.now.key) badge.old.id v other.old.id u (M.tells v u) }
        ensures same { (badge.new ≡ badge.old) × (other.new ≡ other.old) }
        ensures told { (v : V) × (u : V)
            × (badge.old.views ≡ v ∷ []) × (other.old.views ≡ u ∷ []) × M.tells v u }
    {}
}
