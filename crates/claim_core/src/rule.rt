//! The rule of the word, and the kinds of step that keep it.
use crate::notes::Notes;
use crate::seat_view::SeatView;
use crate::terms::Terms;
use atomic_table::{Join, Play, Seat, Split, TableRule};
use std::marker::{Brand, PhantomData};

/// The rule: there is one list of lengths, and it ends at the size.
pub struct OneList;

impl TableRule<(), SeatView, Terms> for OneList {
    ghost use Rattle.claim_core.specs.Rule.{Kept};
    ghost use Rattle.claim_core.specs.SeatView.{first_view};

    ghost holds = { Kept };

    ghost first = { first_view };
}

/// The table of steps on the word.
pub type ClaimTable = atomic_table::Shared<(), SeatView, Terms, OneList>;

/// The right to name the table's invariant.
pub type ClaimDesk = tie_core::Desk<(), SeatView, Terms, OneList>;

/// A caller's seat; each of its steps starts there.
pub type ClaimSeat = Seat<(), SeatView>;

/// A load that shows the size.
pub struct Load;

impl Play<(), SeatView> for Load {
    ghost use Rattle.claim_core.specs.SeatView.{loaded};

    ghost then = { loaded };
}

/// A load that shows the size, and logs a note's events.
pub struct LoadAs<N: Notes> {
    note: PhantomData<N>,
}

impl<N: Notes> Play<(), SeatView> for LoadAs<N> {
    ghost use Rattle.claim_core.specs.SeatView.{loaded_as};

    ghost then = { loaded_as N.note };
}

/// A load that logs a growth without memory. It shows no size.
pub struct Lack;

impl Play<(), SeatView> for Lack {
    ghost use Rattle.claim_core.specs.SeatView.{lacked};

    ghost then = { lacked };
}

/// The numbers of a mark that is set again, chosen by each call.
pub trait Labels {
    ghost use Rattle.std.specs.Prelude.{ℕ, List};

    ghost numbers: { List ℕ };
}

impl Labels for Brand {
    ghost use Rattle.std.specs.Prelude.{[]};

    ghost numbers = { [] };
}

/// A load that sets the numbers of the mark. It shows no size.
pub struct MarkAs<P: Labels> {
    labels: PhantomData<P>,
}

impl<P: Labels> Play<(), SeatView> for MarkAs<P> {
    ghost use Rattle.claim_core.specs.SeatView.{marked_as};

    ghost then = { marked_as P.numbers };
}

/// The load that ends a join. It shows no size.
pub struct Settle;

impl Play<(), SeatView> for Settle {
    ghost use Rattle.claim_core.specs.SeatView.{settled};

    ghost then = { settled };
}

/// An exchange of the size. If it is lost, it logs a note's events.
pub struct ExchangeAs<N: Notes> {
    note: PhantomData<N>,
}

impl<N: Notes> Play<(), SeatView> for ExchangeAs<N> {
    ghost use Rattle.claim_core.specs.SeatView.{exchanged_as};

    ghost then = { exchanged_as N.note };
}

/// A step to the greater of two sizes.
pub struct Raise;

impl Play<(), SeatView> for Raise {
    ghost use Rattle.claim_core.specs.SeatView.{raised};

    ghost then = { raised };
}

/// The step that makes one seat of two.
pub struct Both;

impl Join<SeatView> for Both {
    ghost use Rattle.claim_core.specs.SeatView.{joined_view, spent_view};

    ghost both = { joined_view };

    ghost spent = { spent_view };
}

/// The parts that a split keeps and gives away, chosen by each call.
pub trait Divides {
    ghost use Rattle.std.specs.Prelude.{ℕ, List};

    ghost kept_runs: { List ℕ };

    ghost kept_shares: { ℕ };

    ghost given_runs: { List ℕ };

    ghost given_shares: { ℕ };
}

impl Divides for Brand {
    ghost use Rattle.std.specs.Prelude.{[]};

    ghost kept_runs = { [] };

    ghost kept_shares = { 0 };

    ghost given_runs = { [] };

    ghost given_shares = { 0 };
}

/// The step that splits a seat in two that have seen the same.
pub struct Cut<P: Divides> {
    division: PhantomData<P>,
}

impl<P: Divides> Split<SeatView> for Cut<P> {
    ghost use Rattle.claim_core.specs.SeatView.{with_own};

    ghost left = { λ v. with_own v P.kept_runs P.kept_shares };

    ghost right = { λ v. with_own v P.given_runs P.given_shares };
}
