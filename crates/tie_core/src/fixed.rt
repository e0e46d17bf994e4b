// Looks at cells whose ties are fixed at a stage.
ghost use Rattle.std.specs.Prelude.{◌≡◌, ℕ, [], ◌∷◌, None};
ghost use Rattle.tie_core.specs.Tie.{Tie, Stage, looks};
ghost use Rattle.tie_core.specs.Desk.{IsFixedTie};
ghost use Rattle.tie_core.specs.Permits.{PermitsAlone};

use crate::desk::Desk;
use crate::offer::Offer;
use crate::play::{CellPlay, Moving, SeatMove};
use atomic_table::{Badge, Shared, TableRule};
use std::marker::PhantomData;

/// Has the ties of cells by their offsets, for proofs.
pub trait TiedCells {
    ghost tie_at: { Self → ℕ → Tie };
}

impl<S, V, K, P: TableRule<S, V, K>> Desk<S, V, K, P> {
    /// Takes the caller's seat out of its badge and makes an offer of it, for one look at the cell at an offset, whose
    /// tie is fixed at a stage. Such a cell has no seat, so the caller's moves alone.
    #[inline(always)]
    pub fn offer_look<'a, M: CellPlay<V>, B: TiedCells>(
        table: &'a Shared<S, V, K, P>,
        desk: &Desk<S, V, K, P>,
        badge: &mut Badge<V>,
        cells: &B,
        offset: u64,
        told: u64,
    ) -> Offer<'a, Moving<V, K>, SeatMove<S, V, K, P, M>>
        requires table { (desk.now.table_id ≡ table.now.table_id)
            × (badge.old.table_id ≡ table.now.table_id) }
        requires permits { (a : Stage) × (v : V)
            × IsFixedTie desk.now.floor a (B.tie_at cells.now offset)
            × (badge.old.views ≡ v ∷ [])
            × PermitsAlone (P.holds desk.now.key) badge.old.id v (M.then told v a a) }
        ensures blank { badge.new.views ≡ [] }
        ensures seat { (result.about.table_id ≡ badge.old.table_id)
            × (result.about.id ≡ badge.old.id)
            × (badge.old.views ≡ result.about.view ∷ []) × (result.about.told ≡ told) }
        ensures offer { (result.tie ≡ B.tie_at cells.now offset) × (result.step ≡ looks)
            × (result.made ≡ None) }
    {
        // In the proof, the look's update gets the badge's seat.
        Offer {
            marker: PhantomData,
        }
    }
}
