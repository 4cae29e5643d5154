// Sampled prices, and returns from prices.
#![tactic(auto)]

ghost use Rattle.std.specs.Prelude.{◌≡◌, false, ◌||◌, [], ◌∷◌, ◌++◌, ◌+◌, ◌*◌, ◌-◌, ◌<◌, ◌≤◌, ltb, length, set};
ghost use Rattle.refusal.specs.Table.{first};
ghost use Rattle.refusal.specs.declared.Refusal.TheVariants.{NoData, ShortBuffer};
ghost use Rattle.lent.specs.Grid.{cell, grid, over};
ghost use Rattle.lent.specs.Lent.{sizes};
ghost use Rattle.text.specs.Bytes.{is_word};
ghost use Rattle.resample.specs.Resample.{step_of, keeps_all, kept_rows, kept_row, sampled_cell, sampling_table, sampled_answer, sampled_prices, return_cell, zero_met, returns_answer, returns_of};

use lent::Size;
use refusal::Refusal;

// Cell (r, c) of a matrix of w columns.
fn at(xs: &[f64], w: usize, r: usize, c: usize) -> f64
    requires { r * w + c < length xs.now }
    ensures { result ≡ cell xs.now w r c }
{
    xs[r * w + c]
}

// v is put into cell (r, c).
fn put(xs: &mut [f64], w: usize, r: usize, c: usize, v: f64)
    requires { r * w + c < length xs.old }
    ensures { xs.new ≡ set xs.old (r * w + c) v }
{
    xs[r * w + c] = v;
}

// Whether the name is one of three words.
fn is_one_of(name: &[u8], letter: &[u8], period: &[u8], often: &[u8]) -> bool
    ensures { result ≡ (is_word name.now letter.now || (is_word name.now period.now || is_word name.now often.now)) }
{
    text::is_word(name, letter) || text::is_word(name, period) || text::is_word(name, often)
}

// Rows per period of a sampling name: 5 for weekly, 21 for monthly, otherwise 1.
pub fn freq_step(name: &[u8]) -> usize
    ensures { result ≡ step_of name.now }
{
    if is_one_of(name, b"w", b"week", b"weekly") {
        return 5;
    }
    if is_one_of(name, b"m", b"month", b"monthly") {
        return 21;
    }
    1
}

// No row is left out: a step of 0 or 1, or fewer rows than one block.
fn keeps_all(rows: usize, step: usize) -> bool
    ensures { result ≡ keeps_all rows step }
{
    step <= 1 || rows < step
}

// How many rows the sample has.
fn kept_rows(rows: usize, step: usize) -> usize
    ensures { result ≡ kept_rows rows step }
{
    if keeps_all(rows, step) {
        return rows;
    }
    rows / step
}

// Which row of the prices is row r of the sample: the last of its block.
fn kept_row(rows: usize, step: usize, r: usize) -> usize
    requires rows_bound { rows ≤ 4096 }
    requires r_bound { r < kept_rows rows step }
    ensures { result ≡ kept_row rows step r }
{
    if keeps_all(rows, step) {
        return r;
    }
    (r + 1) * step - 1
}

// Row r of the sample, after the rows above it.
fn sample_row(prices: &[f64], rows: usize, columns: usize, step: usize, r: usize, out: &mut [f64])
    requires prices_len { length prices.now ≡ rows * columns }
    requires rows_bound { rows ≤ 4096 }
    requires r_bound { r < kept_rows rows step }
    requires columns_in_bounds { kept_rows rows step * columns ≤ length out.old }
    requires out_value { over (grid r columns (sampled_cell prices.now rows columns step)) out.old ≡ out.old }
    ensures { out.new ≡ over (grid (r + 1) columns (sampled_cell prices.now rows columns step)) out.old }
{
    let from = kept_row(rows, step, r);
    for c in 0..columns {
        let price = at(prices, columns, from, c);
        put(out, columns, r, c, arithmetic::settled(price));
    }
}

// The sample, over the front of the buffer.
fn sample(prices: &[f64], rows: usize, columns: usize, step: usize, out: &mut [f64])
    requires prices_len { length prices.now ≡ rows * columns }
    requires rows_bound { rows ≤ 4096 }
    requires columns_in_bounds { kept_rows rows step * columns ≤ length out.old }
    ensures { out.new ≡ over (grid (kept_rows rows step) columns (sampled_cell prices.now rows columns step)) out.old }
{
    let kept = kept_rows(rows, step);
    for r in 0..kept {
        sample_row(prices, rows, columns, step, r, out);
    }
}

// The refusal that the sizes give, if there is one. Its product is taken once they are small.
#[tactic(auto, using(refusal::proofs::Tables::first_append), unfolding(crate::specs::Resample::sampling_table, refusal::specs::Table::first, refusal::specs::Table::and_then, refusal::specs::Table::or_else))]
fn judge_sampling(
    len: usize,
    rows: usize,
    columns: usize,
    step: usize,
    room: usize,
) -> Result<(), Refusal>
    ensures { result ≡ first (sampling_table len rows columns step room) }
{
    lent::sized(len, rows, columns)?;
    refusal::refuse(room < kept_rows(rows, step) * columns, Refusal::ShortBuffer)
}

// The last row of every block of `step` rows. Prices of fewer rows than one block are answered unchanged.
#[tactic(auto, using(crate::proofs::Laws::sampling_done, lent::proofs::Laws::over_replicate), unfolding(crate::specs::Resample::sampling_outcome, crate::specs::Resample::sampled_answer, crate::specs::Resample::sampled_prices, lent::specs::Lent::answer_of, lent::specs::Lent::laid))]
pub fn resample_prices(
    prices: &[f64],
    rows: usize,
    columns: usize,
    step: usize,
    out: &mut [f64],
) -> Result<Size, Refusal>
    ensures value { result ≡ sampled_answer prices.now rows columns step (length out.old) }
    ensures out_after { out.new ≡ sampled_prices prices.now rows columns step (length out.old) }
{
    let said = judge_sampling(prices.len(), rows, columns, step, out.len());
    lent::clear(out);
    said?;
    sample(prices, rows, columns, step, out);
    Ok(Size {
        rows: kept_rows(rows, step),
        columns,
    })
}

// How many rows of returns there are: one fewer than of prices.
fn return_rows(rows: usize) -> usize
    ensures { result ≡ rows - 1 }
{
    rows.saturating_sub(1)
}

// The returns, up to the first zero price met as a denominator: whether there is one.
fn scan(prices: &[f64], last: usize, columns: usize, out: &mut [f64]) -> bool
    requires prices_len { length prices.now ≡ (last + 1) * columns }
    requires columns_in_bounds { last * columns ≤ length out.old }
    ensures value { result ≡ zero_met prices.now (last * columns) }
    ensures out_after { result ≡ false → out.new ≡ over (grid last columns (return_cell prices.now columns)) out.old }
{
    let mut met = false;
    'scan: for r in 0..last {
        for c in 0..columns {
            let previous = at(prices, columns, r, c);
            if previous == 0.0 {
                met = true;
                break 'scan;
            }
            let price = at(prices, columns, r + 1, c);
            let change = price / previous - 1.0;
            put(out, columns, r, c, arithmetic::settled(change));
        }
    }
    met
}

// The refusal that the sizes give, if there is one: every line of the table but the zero price's.
#[tactic(auto, using(refusal::proofs::Tables::first_append), unfolding(refusal::specs::Table::first, refusal::specs::Table::and_then, refusal::specs::Table::or_else))]
fn judge_returns(len: usize, rows: usize, columns: usize, room: usize) -> Result<(), Refusal>
    ensures { result ≡ first (sizes len rows columns ++ ((ltb room ((rows - 1) * columns), ShortBuffer) ∷ (ltb rows 2, NoData) ∷ [])) }
{
    lent::sized(len, rows, columns)?;
    refusal::refuse(room < return_rows(rows) * columns, Refusal::ShortBuffer)?;
    refusal::refuse(rows < 2, Refusal::NoData)
}

// Each price over the one before it, less 1.
#[tactic(auto, using(crate::proofs::Laws::accepted, crate::proofs::Laws::returns_judged, lent::proofs::Laws::over_replicate), unfolding(crate::specs::Resample::returns_answer, crate::specs::Resample::returns_of, refusal::specs::Table::first, refusal::specs::Table::and_then, lent::specs::Lent::answer_of, lent::specs::Lent::laid))]
pub fn returns_from_prices(
    prices: &[f64],
    rows: usize,
    columns: usize,
    out: &mut [f64],
) -> Result<Size, Refusal>
    ensures value { result ≡ returns_answer prices.now rows columns (length out.old) }
    ensures out_after { out.new ≡ returns_of prices.now rows columns (length out.old) }
{
    let said = judge_returns(prices.len(), rows, columns, out.len());
    lent::clear(out);
    said?;
    let last = return_rows(rows);
    // What was written before the zero goes too.
    if scan(prices, last, columns, out) {
        lent::clear(out);
        return Err(Refusal::NoData);
    }
    Ok(Size {
        rows: last,
        columns,
    })
}
