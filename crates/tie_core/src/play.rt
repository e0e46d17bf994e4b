// What a table's user says of seats that go along with steps: the views that show stages, and what a step tells.
ghost use Rattle.std.specs.Prelude.{ℕ};
ghost use base.Fml.{ftrue};
ghost use denote.RawPtr.{Ptr, coded_ptr};
ghost use Rattle.atomic_table.specs.Seated.{TableId, table_id_coded, age as age_of};
ghost use Rattle.tie_core.specs.Tie.{Stage, Step};
ghost use Rattle.tie_core.specs.Desk.{content, gone};

use crate::offer::Book;
use atomic_table::TableRule;
use std::marker::{Model, PhantomData};

/// Says which view of a table's seat shows each stage of a cell.
pub trait Staged<V> {
    ghost shows: { Stage → V };
}

/// Says how far the cell of each place is when the table is made, by the data of its rule.
pub trait Opened<K> {
    ghost opened_at: { K → ℕ → Stage };
}

/// Says how a caller's seat goes along with one step on a cell.
pub trait CellPlay<V> {
    // The step.
    ghost step: { Step };
    // What the step tells its caller: of the number told, the view before it, the stages before and after it, and the
    // view after it.
    ghost then: { ℕ → V → Stage → Stage → V → Type 0 };
}

/// Says which view the seat has that lies behind those of new cells.
pub trait RowPlay<V> {
    // By the number of the first cell's seat, and the number of cells.
    ghost owner: { ℕ → ℕ → V };
}

/// The data of an offer from a table's seat: the table, the seat's number, its view before the step, and a number that
/// the caller tells. No value of it is made.
pub struct Moving<V, K> {
    pub(crate) marker: PhantomData<(V, K)>,
    pub ghost table_id: { TableId } by { table_id_coded },
    pub ghost key: { K },
    pub ghost words: { Ptr } by { coded_ptr },
    pub ghost id: { ℕ },
    pub ghost view: { V },
    pub ghost told: { ℕ },
}

impl<V, K> Model for Moving<V, K> {
    ghost also_owns = { λ _. ftrue };
}

impl<V, K> Drop for Moving<V, K> {
    fn drop(self) {
        let Self { marker: _ } = self;
    }
}

/// Marks an offer from a seat of a table with this rule, for this play.
#[derive(Drop)]
pub struct SeatMove<S, V, K, P, M> {
    marker: PhantomData<(S, V, K, P, M)>,
}

impl<S, V, K, P: TableRule<S, V, K>, M: CellPlay<V>> Book<Moving<V, K>>
    for SeatMove<S, V, K, P, M> {
    ghost age = { λ a. age_of a.table_id };

    ghost inner = { λ a. content S.row V.row.coded.code (P.holds a.key) a.words a.table_id };

    ghost gain = { λ a from to.
        gone V.row.coded.code a.table_id a.id (M.then a.told a.view from to) };
}
