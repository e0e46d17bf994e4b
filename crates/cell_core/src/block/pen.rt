// The right to write a cell.
ghost use Rattle.std.specs.Prelude.{◌≡◌};

use crate::block::fields::in_field;
use crate::block::kind::{Kind, Plain};
use crate::block::placed::Placed;
use crate::block::spoilt::Spoilt;
use crate::slot::steps::{BROKEN, BUSY, FILLED, RawPen};
use std::marker::{Model, PhantomData};

/// The right to fill or break the cell at an offset, which is busy until then. A pen must be spent by one of
/// the two.
pub struct Pen<'a, T, B: Kind = Plain> {
    pub(crate) offset: u64,
    pub(crate) pen: RawPen<'a, T>,
    pub(crate) marker: PhantomData<B>,
}

impl<'a, T, B: Kind> Model for Pen<'a, T, B> {
    ghost use Rattle.std.specs.Prelude.{◌≡◌, ◌%◌};
    ghost use Rattle.cell_core.specs.Laid.{IsOfKind, word_cells};
    ghost use Rattle.cell_core.specs.Block.{PenView, pen_coded};

    ghost Value = { PenView };

    ghost coded = { pen_coded };

    ghost view = { λ p. record { offset = p.offset; cell = p.pen.of; found = p.pen.found } };

    ghost invariant = { λ p. (p.pen.found ≡ p.pen.sought) × (p.pen.index ≡ p.offset % word_cells)
        × IsOfKind B.tied p.pen.of × (p.pen.first ≡ B.first) };
}

impl<'a, T> Pen<'a, T> {
    /// Writes the value, and then the state, which publishes it.
    pub fn fill(self, value: T) -> Placed<T>
        ensures offset { result.offset ≡ self.entry.offset }
        ensures value { result.value ≡ value }
        ensures name { result.name ≡ self.entry.cell.value_name }
        ensures found { result.found ≡ self.entry.found }
    {
        let Pen {
            offset,
            pen,
            marker: _,
        } = self;
        let written = pen.fill(value, in_field(FILLED - BUSY, offset));
        Placed { offset, written }
    }

    /// Breaks the cell: it holds no value until somebody mends it.
    pub fn spoil(self) -> Spoilt
        ensures offset { result.offset ≡ self.entry.offset }
        ensures name { result.name ≡ self.entry.cell.broken_name }
    {
        let Pen {
            offset,
            pen,
            marker: _,
        } = self;
        let broken = pen.break_cell(in_field(BROKEN - BUSY, offset));
        Spoilt { offset, broken }
    }
}
