//! The tokens of the vector's places.
ghost use Rattle.std.specs.Prelude.{◌≡◌};
ghost use Rattle.grow_core.specs.Token.{AreSmall, place_in};

use cell_core::block;
use std::fmt;
use std::marker::Model;
use table_core::Key;

// The place of a cell in the segment of a key.
fn place_of(key: &Key, offset: u64) -> u64
    requires { AreSmall key.now.layout key.now.segment offset }
    ensures { result ≡ place_in key.now.layout key.now.segment offset }
{
    key.layout().first(key.segment()) + offset
}

// The `Placed` of `cell_core`, with the key of its segment.
/// Evidence that a place holds a value, which it keeps. It crosses threads, and takes 16 bytes.
#[derive(Drop)]
pub struct Placed<T> {
    pub(crate) key: Key,
    pub(crate) cell: block::Placed<T>,
}

impl<T> Model for Placed<T> {
    ghost use Rattle.grow_core.specs.Token.{PlacedView, placed_coded, placed_view, AreSmall};

    ghost Value = { PlacedView T };

    ghost coded = { placed_coded T.code };

    ghost view = { λ p. placed_view p.key p.cell };

    ghost invariant = { λ p. AreSmall p.key.layout p.key.segment p.cell.offset };
}

impl<T> fmt::Debug for Placed<T> {
    fn fmt<W: fmt::Write>(&self, f: &mut fmt::Formatter<W>) -> fmt::Result {
        f.debug_struct("Placed")
            .field("place", &self.place())
            .finish_non_exhaustive()
    }
}

impl<T> Placed<T> {
    /// Returns the place in the vector.
    pub fn place(&self) -> u64
        ensures { result ≡ self.now.place }
    {
        place_of(&self.key, self.cell.offset())
    }

    /// Duplicates the token.
    pub fn again(&self) -> Placed<T>
        ensures { result ≡ self.now }
    {
        Placed {
            key: self.key.again(),
            cell: self.cell.again(),
        }
    }
}

// The `Spoilt` of `cell_core`, with the key of its segment.
/// Evidence that a place was broken. It crosses threads, and takes 16 bytes. The place may have been mended
/// since.
#[derive(Drop)]
pub struct Spoilt {
    pub(crate) key: Key,
    pub(crate) cell: block::Spoilt,
}

impl Model for Spoilt {
    ghost use Rattle.grow_core.specs.Token.{SpoiltView, spoilt_coded, spoilt_view, AreSmall};

    ghost Value = { SpoiltView };

    ghost coded = { spoilt_coded };

    ghost view = { λ s. spoilt_view s.key s.cell };

    ghost invariant = { λ s. AreSmall s.key.layout s.key.segment s.cell.offset };
}

impl fmt::Debug for Spoilt {
    fn fmt<W: fmt::Write>(&self, f: &mut fmt::Formatter<W>) -> fmt::Result {
        f.debug_struct("Spoilt")
            .field("place", &self.place())
            .finish_non_exhaustive()
    }
}

impl Spoilt {
    /// Returns the place in the vector.
    pub fn place(&self) -> u64
        ensures { result ≡ self.now.place }
    {
        place_of(&self.key, self.cell.offset())
    }

    /// Duplicates the token.
    pub fn again(&self) -> Spoilt
        ensures { result ≡ self.now }
    {
        Spoilt {
            key: self.key.again(),
            cell: self.cell.again(),
        }
    }
}

/// Evidence that another caller began a place. It takes 16 bytes.
#[derive(Drop)]
pub struct BegunPlace {
    pub(crate) key: Key,
    pub(crate) cell: block::Begun,
}

impl Model for BegunPlace {
    ghost use Rattle.grow_core.specs.Token.{BegunView, begun_coded, begun_view, AreSmall};

    ghost Value = { BegunView };

    ghost coded = { begun_coded };

    ghost view = { λ b. begun_view b.key b.cell };

    ghost invariant = { λ b. AreSmall b.key.layout b.key.segment b.cell.offset };
}

impl fmt::Debug for BegunPlace {
    fn fmt<W: fmt::Write>(&self, f: &mut fmt::Formatter<W>) -> fmt::Result {
        f.debug_struct("BegunPlace")
            .field("place", &self.place())
            .finish_non_exhaustive()
    }
}

impl BegunPlace {
    /// Returns the place in the vector.
    pub fn place(&self) -> u64
        ensures { result ≡ self.now.place }
    {
        place_of(&self.key, self.cell.offset())
    }
}

// The `Found` of `cell_core`, with tokens of the vector, and never empty.
/// The state of a place that another caller began, as a call found it.
#[derive(Debug, Drop)]
pub enum Found<T> {
    /// Nothing yet: it is being filled.
    Busy(BegunPlace),
    /// A value.
    Filled(Placed<T>),
    /// None: it is broken.
    Broken(Spoilt),
}
