// Lent buffers: their sizes, and the zeros that a call leaves in them.
#![tactic(auto)]

ghost use Rattle.std.specs.Prelude.{◌≡◌, ◌++◌, ◌-◌, ◌*◌, ltb, length, take, replicate};
ghost use Rattle.arithmetic.specs.Constants.{pz};
ghost use Rattle.refusal.specs.Table.{first};
ghost use Rattle.lent.specs.Grid.{zeros, noughts, over};
ghost use Rattle.lent.specs.Lent.{shape_of, too_big, misfits, sizes, squares, over_limit, other_length, answer_of, told_of};

use refusal::Refusal;

pub const MOST_ASSETS: usize = 64;

pub const MOST_COLUMNS: usize = 64;

pub const MOST_ROWS: usize = 4096;

pub const MOST_CELLS: usize = 4096;

pub const LEAST_SCRATCH: usize = 8192;

// How many rows and columns a matrix has.
#[derive(Clone, Copy)]
pub struct Size {
    pub rows: usize,
    pub columns: usize,
}

// What an entry of a cleared buffer is.
pub trait Zero: Copy {
    ghost ZERO: { Self };

    const ZERO: Self;
}

impl Zero for f64 {
    ghost ZERO = { pz };

    const ZERO: f64 = 0.0;
}

impl Zero for usize {
    ghost ZERO = { 0 };

    const ZERO: usize = 0;
}

impl Zero for u8 {
    ghost ZERO = { 0 };

    const ZERO: u8 = 0;
}

// Every entry is zero.
pub fn clear<T: Zero>(out: &mut [T])
    ensures { out.new ≡ replicate (length out.old) T.ZERO }
{
    clear_from(out, 0);
}

// Every entry from place `start` on is zero; those before it stay.
pub fn clear_from<T: Zero>(out: &mut [T], start: usize)
    ensures { out.new ≡ take start out.old ++ replicate (length out.old - start) T.ZERO }
{
    for i in start..out.len() {
        out[i] = T::ZERO;
    }
}

// The front of `to` is `from`, cut at the end of `to`; the rest of `to` stays.
pub fn copy(from: &[f64], to: &mut [f64])
    ensures { to.new ≡ over (take (length to.old) from.now) to.old }
{
    for n in 0..from.len().min(to.len()) {
        to[n] = from[n];
    }
}

// Rows, columns or cells are over their limit (9). The product is taken once both are small.
pub fn over_limit(rows: usize, columns: usize) -> bool
    ensures { result ≡ over_limit rows columns }
{
    if MOST_ROWS < rows {
        return true;
    }
    if MOST_COLUMNS < columns {
        return true;
    }
    MOST_CELLS < rows * columns
}

// The slice isn't rows times columns long (10). By a division: the product could overflow.
pub fn has_other_length(len: usize, rows: usize, columns: usize) -> bool
    ensures { result ≡ other_length len rows columns }
{
    if columns == 0 {
        return len != 0;
    }
    if len % columns != 0 {
        return true;
    }
    len / columns != rows
}

// A matrix that is given has its sizes.
#[tactic(auto, unfolding(crate::specs::Lent::shape_of))]
pub fn shape_if(given: bool, rows: usize, columns: usize) -> Option<Size>
    ensures { result ≡ shape_of given rows columns }
{
    given.then_some(Size { rows, columns })
}

#[tactic(auto, unfolding(crate::specs::Lent::too_big))]
pub fn too_big(shape: Option<Size>) -> bool
    ensures { result ≡ too_big shape }
{
    shape.is_some_and(|s| over_limit(s.rows, s.columns))
}

#[tactic(auto, unfolding(crate::specs::Lent::misfits))]
pub fn is_misfit(shape: Option<Size>, len: usize) -> bool
    ensures { result ≡ misfits shape len }
{
    shape.is_some_and(|s| has_other_length(len, s.rows, s.columns))
}

// The refusal that the sizes of a lone matrix give, if there is one.
#[tactic(auto, unfolding(crate::specs::Lent::sizes, refusal::specs::Table::first, refusal::specs::Table::or_else))]
pub fn sized(len: usize, rows: usize, columns: usize) -> Result<(), Refusal>
    ensures { result ≡ first (sizes len rows columns) }
{
    refusal::refuse(over_limit(rows, columns), Refusal::OverLimit)?;
    refusal::refuse(has_other_length(len, rows, columns), Refusal::SliceLength)
}

// The refusal that the sizes of a lone matrix give which must be square, with an answer as large in a buffer of `room`.
#[tactic(auto, using(crate::proofs::Sizes::squared_refused, crate::proofs::Sizes::squared_sized, crate::proofs::Sizes::sized_done), unfolding(refusal::specs::Table::first, refusal::specs::Table::or_else))]
pub fn squared(len: usize, rows: usize, columns: usize, room: usize) -> Result<(), Refusal>
    ensures { result ≡ first (squares len rows columns room) }
{
    sized(len, rows, columns)?;
    refusal::refuse(room < columns * columns, Refusal::ShortBuffer)?;
    refusal::refuse(rows != columns, Refusal::DimensionMismatch)
}

// The answer of a call that went so, and makes a matrix of these sizes.
#[tactic(auto, unfolding(crate::specs::Lent::answer_of))]
pub fn answered(said: Result<(), Refusal>, rows: usize, columns: usize) -> Result<Size, Refusal>
    ensures { result ≡ answer_of said rows columns }
{
    said?;
    Ok(Size { rows, columns })
}

// How a call that answers a matrix went.
#[tactic(auto, unfolding(crate::specs::Lent::told_of))]
pub fn told(answer: Result<Size, Refusal>) -> Result<(), Refusal>
    ensures { result ≡ told_of answer }
{
    answer?;
    Ok(())
}

// Under the 2(n − 1) numbers of n assets' merge rows. By a division, here and below: the product could overflow.
pub fn lacks_rows(room: usize, n: usize) -> bool
    ensures { result ≡ ltb room (2 * (n - 1)) }
{
    if n == 0 {
        return false;
    }
    room / 2 < n - 1
}

// Under n by n cells.
pub fn lacks_cells(room: usize, n: usize) -> bool
    ensures { result ≡ ltb room (n * n) }
{
    if n == 0 {
        return false;
    }
    room / n < n
}
