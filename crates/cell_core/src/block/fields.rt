// The place of a cell's state: each word of a block has the states of sixteen cells, four bits a cell.
ghost use Rattle.std.specs.Prelude.{true, ◌≡◌, ◌≢◌, ◌+◌, ◌-◌, ◌*◌, ◌/◌, ◌%◌, ◌^◌, ◌<◌, ◌≤◌};
ghost use Rattle.cell_core.specs.Fields.{field, sums};
ghost use Rattle.cell_core.specs.Run.{AreEmptyIn, AreFilledIn};
ghost use Rattle.cell_core.specs.Laid.{word_cells};
ghost use Rattle.cell_core.specs.Slot.{filled_state};

// The cells that have their states in one word.
pub(crate) const WORD_CELLS: u64 = 16;

const STATE_BITS: u64 = 4;

const STATE_MASK: u64 = 15;

// The lowest bit of each field.
const EACH_FIELD: u64 = 0x1111_1111_1111_1111;

// The state of a filled cell in each field.
const ALL_FILLED: u64 = 0x3333_3333_3333_3333;

// The index of the word.
pub(crate) fn word_of(offset: u64) -> usize
    ensures { result ≡ offset / word_cells }
{
    (offset / WORD_CELLS) as usize
}

// The number of words for this many cells.
pub(crate) fn words_for(n: u64) -> usize
    ensures { result ≡ (n + 15) / word_cells }
{
    n.div_ceil(WORD_CELLS) as usize
}

// The state in the cell's field of its word.
pub(crate) fn state_in(word: u64, offset: u64) -> u64
    ensures { result ≡ field word (offset % word_cells) }
{
    (word >> (STATE_BITS * (offset % WORD_CELLS))) & STATE_MASK
}

// The state, moved to the cell's field of its word.
pub(crate) fn in_field(state: u64, offset: u64) -> u64
    requires { state ≤ 15 }
    ensures { result ≡ state * 16 ^ (offset % word_cells) }
{
    state << (STATE_BITS * (offset % WORD_CELLS))
}

// All bits of a word but these of the cell's field.
pub(crate) fn all_but(bits: u64, offset: u64) -> u64
    requires { bits ≤ 15 }
    ensures { result ≡ 2 ^ 64 - 1 - bits * 16 ^ (offset % word_cells) }
{
    !in_field(bits, offset)
}

// All bits of a word but the cell's field.
pub(crate) fn keep_of(offset: u64) -> u64
    ensures { result ≡ 2 ^ 64 - 1 - 15 * 16 ^ (offset % word_cells) }
{
    all_but(STATE_MASK, offset)
}

// The state, moved to the fields of `n` cells from this one on.
pub(crate) fn in_fields(state: u64, n: u64, offset: u64) -> u64
    requires { (state ≤ 15) × (0 < n) × (offset % word_cells + n ≤ word_cells) }
    ensures { result ≡ sums state n (offset % word_cells) }
{
    let low = (EACH_FIELD >> (STATE_BITS * (WORD_CELLS - n))) * state;
    low << (STATE_BITS * (offset % WORD_CELLS))
}

// Returns whether the word has `n` empty cells from this one on.
pub(crate) fn are_empty(word: u64, n: u64, offset: u64) -> bool
    requires { offset % word_cells + n ≤ word_cells }
    ensures { result ≡ true → AreEmptyIn word (offset % word_cells) n }
{
    let fields = word >> (STATE_BITS * (offset % WORD_CELLS));
    if n == WORD_CELLS {
        fields == 0
    } else {
        fields % (1 << (STATE_BITS * n)) == 0
    }
}

// Returns how many cells from this one on are filled in the word, up to the first that is not and `n` at most.
#[inline(always)]
pub(crate) fn filled_in(word: u64, n: u64, offset: u64) -> u64
    ensures { (result ≤ n) × AreFilledIn word (offset % word_cells) result
        × (result < n → field word (offset % word_cells + result) ≢ filled_state) }
{
    let fields = word >> (STATE_BITS * (offset % WORD_CELLS));
    // The lowest bit of the difference is in the field of the first cell that is not filled.
    let difference = fields.wrapping_sub(ALL_FILLED);
    (difference.trailing_zeros() as u64 / STATE_BITS).min(n)
}
