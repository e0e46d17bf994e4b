// A marker of a block, and of its pens, says whether their cells are tied to a table.
ghost use Rattle.std.specs.Prelude.{Bool, true, false};

/// Says, as a marker, whether the cells of a block may be tied. `Plain` cells are not.
pub trait Kind {
    // Cells of this kind may be tied.
    ghost tied: { Bool };
    // A pen of this kind is of a cell that is begun and not busy.
    ghost first: { Bool };
}

/// Marks a block, or a pen, of cells that are not tied.
#[derive(Drop)]
pub struct Plain {}

impl Kind for Plain {
    ghost tied = { false };

    ghost first = { false };
}

/// Marks a block, or a pen, of cells that may each be tied to a seat of a table of `atomic_table`. A step on such a
/// cell runs an update of its caller.
#[derive(Drop)]
pub struct Tied {}

impl Kind for Tied {
    ghost tied = { true };

    ghost first = { false };
}

/// Marks the pen of a tied cell that nobody has begun before: the state of such a cell is still that of an empty one. A
/// mender's pen is `Tied`.
#[derive(Drop)]
pub struct First {}

impl Kind for First {
    ghost tied = { true };

    ghost first = { true };
}
