//! What a seat at the word knows.
use crate::role::{Role, RowAt};
use book_core::{Event, Reply};
use std::collections::LinkedList;

/// The terms and the mark of a seat's word, the lengths of the runs that it has seen, the indices of its own
/// runs, its shares, and the two lists that its last join combined; the history that it has seen, and the two
/// that its last join combined; the use of the seat, places that it knows are begun, rows of cells that it knows,
/// and a place such that neither it nor any later one has an entry. Never constructed: it exists in proofs only.
pub struct SeatView {
    pub limit: u64,
    pub base: u64,
    pub mark: LinkedList<u64>,
    pub filled: LinkedList<bool>,
    pub seen: LinkedList<u64>,
    pub mine: LinkedList<u64>,
    pub shares: u64,
    pub one: LinkedList<u64>,
    pub other: LinkedList<u64>,
    pub log: LinkedList<(Event, Reply)>,
    pub one_log: LinkedList<(Event, Reply)>,
    pub other_log: LinkedList<(Event, Reply)>,
    pub role: Role,
    pub begun: LinkedList<u64>,
    pub rows: LinkedList<RowAt>,
    pub laid: u64,
}
