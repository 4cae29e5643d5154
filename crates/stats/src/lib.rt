// From returns to covariances, correlations and expected returns. A matrix is a slice of rows times columns doubles.
#![tactic(auto)]

ghost use Rattle.std.specs.Prelude.{◌≡◌, ℕ, ◌+◌, ◌*◌, ◌<◌, ◌≤◌, length, set, Float};
ghost use Rattle.arithmetic.specs.Root.{root};
ghost use Rattle.lent.specs.Grid.{cell, tab, grid, over};
ghost use Rattle.stats.specs.Covariance.{mean_of, covariance_cell, covariance_outcome, covariance_answer, covariances};
ghost use Rattle.stats.specs.Covariance.{shrunk_cell, shrink_answer, shrunk, correlation_cell, any_low, correlation_outcome, correlation_answer, correlations};
ghost use Rattle.stats.specs.Expected.{mean_return, exponential_return, expected_outcome, expected_answer, mean_returns, exponential_returns};
ghost use Rattle.lent.specs.Inner.{Held};
ghost use Rattle.stats.specs.Inner.{Whole, Kept, products_of, Taken};

use lent::Size;
use refusal::Refusal;

// Cell (r, c) of a matrix of w columns.
fn at(xs: &[f64], w: usize, r: usize, c: usize) -> f64
    requires { r * w + c < length xs.now }
    ensures { result ≡ cell xs.now w r c }
{
    xs[r * w + c]
}

// v is put into cell (r, c), as an answer is stored.
fn put(xs: &mut [f64], w: usize, r: usize, c: usize, v: f64)
    requires { r * w + c < length xs.old }
    ensures { xs.new ≡ set xs.old (r * w + c) v }
{
    xs[r * w + c] = arithmetic::settled(v);
}

// The mean of column c.
fn mean(xs: &[f64], rows: usize, w: usize, c: usize) -> f64
    requires xs_len { length xs.now ≡ rows * w }
    requires c_lt_w { c < w }
    ensures { result ≡ mean_of xs.now rows w c }
{
    let mut s = 0.0;
    for row in 0..rows {
        s += at(xs, w, row, c);
    }
    s / arithmetic::count(rows)
}

// The mean of each column.
fn means(xs: &[f64], rows: usize, w: usize) -> [f64; 64]
    requires { Whole xs.now rows w }
    ensures { Kept result w (mean_of xs.now rows w) }
{
    let mut m = [0.0; 64];
    for c in 0..w {
        m[c] = mean(xs, rows, w, c);
    }
    m
}

// Row r's products are added to the sums of column i with itself and each column after it, which so go side by side.
fn add_row(
    xs: &[f64],
    rows: usize,
    w: usize,
    m: &[f64; 64],
    i: usize,
    r: usize,
    sums: &mut [f64; 64],
)
    requires whole { Whole xs.now rows w }
    requires i_lt_w { i < w }
    requires r_lt_rows { r < rows }
    requires held { Held sums.old i w (products_of xs.now w m.now i r) }
    ensures { Held sums.new i w (products_of xs.now w m.now i (r + 1)) }
{
    let x = at(xs, w, r, i) - m[i];
    for j in i..w {
        sums[j] += x * (at(xs, w, r, j) - m[j]);
    }
}

// The sums of the products of column i with itself and each column after it.
fn sums_of(xs: &[f64], rows: usize, w: usize, m: &[f64; 64], i: usize) -> [f64; 64]
    requires whole { Whole xs.now rows w }
    requires i_lt_w { i < w }
    ensures { Held result i w (products_of xs.now w m.now i rows) }
{
    let mut sums = [0.0; 64];
    for r in 0..rows {
        add_row(xs, rows, w, m, i, r, &mut sums);
    }
    sums
}

// Cell (i, j), after the rows above it: left of the diagonal it is copied from across it, else its sum is divided by rows - 1.
fn covariance_cell(sums: &[f64; 64], rows: usize, w: usize, i: usize, j: usize, out: &[f64]) -> f64
    requires w_bound { w ≤ 64 }
    requires le_rows { 2 ≤ rows }
    requires i_lt_w { i < w }
    requires j_lt_w { j < w }
    requires w_in_bounds { w * w ≤ length out.now }
    ensures { Taken result sums.now rows w i j out.now }
{
    if j < i {
        return at(out, w, j, i);
    }
    sums[j] / arithmetic::count(rows - 1)
}

// Row i, after the rows above it.
fn covariance_row(xs: &[f64], rows: usize, w: usize, m: &[f64; 64], i: usize, out: &mut [f64])
    requires whole { Whole xs.now rows w }
    requires le_rows { 2 ≤ rows }
    requires kept { Kept m.now w (mean_of xs.now rows w) }
    requires i_lt_w { i < w }
    requires w_in_bounds { w * w ≤ length out.old }
    requires out_value { over (grid i w (covariance_cell xs.now rows w)) out.old ≡ out.old }
    ensures { out.new ≡ over (grid (i + 1) w (covariance_cell xs.now rows w)) out.old }
{
    let sums = sums_of(xs, rows, w, m, i);
    for j in 0..w {
        let v = covariance_cell(&sums, rows, w, i, j, &out[..]);
        put(out, w, i, j, v);
    }
}

fn covariance_rows(xs: &[f64], rows: usize, w: usize, m: &[f64; 64], out: &mut [f64])
    requires whole { Whole xs.now rows w }
    requires le_rows { 2 ≤ rows }
    requires kept { Kept m.now w (mean_of xs.now rows w) }
    requires w_in_bounds { w * w ≤ length out.old }
    ensures { out.new ≡ over (grid w w (covariance_cell xs.now rows w)) out.old }
{
    for i in 0..w {
        covariance_row(xs, rows, w, m, i, out);
    }
}

#[tactic(auto, using(refusal::proofs::Tables::first_append), unfolding(crate::specs::Covariance::covariance_outcome, crate::specs::Covariance::covariance_table, refusal::specs::Table::first, refusal::specs::Table::and_then, refusal::specs::Table::or_else))]
fn judge_covariance(xs: &[f64], rows: usize, w: usize, room: usize) -> Result<(), Refusal>
    ensures { result ≡ covariance_outcome xs.now rows w room }
{
    lent::sized(xs.len(), rows, w)?;
    refusal::refuse(room < w * w, Refusal::ShortBuffer)?;
    refusal::refuse(rows < 2, Refusal::NoData)
}

// The covariance of the columns of a matrix of returns.
#[tactic(auto, using(crate::proofs::Laws::covariance_done, lent::proofs::Laws::over_replicate), unfolding(crate::specs::Covariance::covariance_answer, crate::specs::Covariance::covariances, lent::specs::Lent::answer_of, lent::specs::Lent::laid))]
pub fn covariance(
    returns: &[f64],
    rows: usize,
    columns: usize,
    out: &mut [f64],
) -> Result<Size, Refusal>
    ensures value { result ≡ covariance_answer returns.now rows columns (length out.old) }
    ensures out_after { out.new ≡ covariances returns.now rows columns (length out.old) }
{
    let said = judge_covariance(returns, rows, columns, out.len());
    lent::clear(out);
    said?;
    let m = means(returns, rows, columns);
    covariance_rows(returns, rows, columns, &m, out);
    Ok(Size {
        rows: columns,
        columns,
    })
}

// What f gives at each cell of n rows and columns is stored, over the front of out.
fn fill_cells<F: Fn(usize, usize) -> f64>(n: usize, out: &mut [f64], f: F)
    requires n_in_bounds { n * n ≤ length out.old }
    requires callable { (i : ℕ) (j : ℕ) → i < n → j < n → F.pre f i j }
    ensures { (g : ℕ → ℕ → Float) → ((i : ℕ) (j : ℕ) (v : Float) → i < n → j < n → F.post f i j v → v ≡ g i j)
        → out.new ≡ over (grid n n g) out.old }
{
    for i in 0..n {
        for j in 0..n {
            put(out, n, i, j, f(i, j));
        }
    }
}

// Off the diagonal, times 1.0 - 0.1.
fn shrunk_cell(cov: &[f64], n: usize, i: usize, j: usize) -> f64
    requires whole { Whole cov.now n n }
    requires i_lt_n { i < n }
    requires j_lt_n { j < n }
    ensures { result ≡ shrunk_cell cov.now n i j }
{
    let x = at(cov, n, i, j);
    if i == j {
        return x;
    }
    x * (1.0 - 0.1)
}

// A covariance with its off-diagonal shrunk.
#[tactic(auto, using(crate::proofs::Laws::shrink_done, lent::proofs::Laws::over_replicate), unfolding(crate::specs::Covariance::shrink_outcome, crate::specs::Covariance::shrink_answer, crate::specs::Covariance::shrunk, lent::specs::Lent::answer_of, lent::specs::Lent::laid))]
pub fn shrink_covariance(
    cov: &[f64],
    rows: usize,
    columns: usize,
    out: &mut [f64],
) -> Result<Size, Refusal>
    ensures value { result ≡ shrink_answer cov.now rows columns (length out.old) }
    ensures out_after { out.new ≡ shrunk cov.now rows columns (length out.old) }
{
    let said = lent::squared(cov.len(), rows, columns, out.len());
    lent::clear(out);
    said?;
    fill_cells(columns, out, |i, j| shrunk_cell(cov, columns, i, j));
    Ok(Size {
        rows: columns,
        columns,
    })
}

// Some variance is at most 0; a NaN isn't.
fn any_low(cov: &[f64], n: usize) -> bool
    requires { length cov.now ≡ n * n }
    ensures { result ≡ any_low cov.now n }
{
    for i in 0..n {
        if at(cov, n, i, i) <= 0.0 {
            return true;
        }
    }
    false
}

// The root of each variance.
fn roots(cov: &[f64], n: usize) -> [f64; 64]
    requires { Whole cov.now n n }
    ensures { Kept result n (λ i. root (cell cov.now n i i)) }
{
    let mut std = [0.0; 64];
    for i in 0..n {
        std[i] = arithmetic::sqrt(at(cov, n, i, i));
    }
    std
}

fn correlation_cell(cov: &[f64], n: usize, std: &[f64; 64], i: usize, j: usize) -> f64
    requires whole { Whole cov.now n n }
    requires kept { Kept std.now n (λ k. root (cell cov.now n k k)) }
    requires i_lt_n { i < n }
    requires j_lt_n { j < n }
    ensures { result ≡ correlation_cell cov.now n i j }
{
    at(cov, n, i, j) / (std[i] * std[j])
}

#[tactic(auto, using(lent::proofs::Sizes::squared_done, refusal::proofs::Tables::first_append), unfolding(crate::specs::Covariance::correlation_outcome, crate::specs::Covariance::correlation_table, refusal::specs::Table::first, refusal::specs::Table::and_then, refusal::specs::Table::or_else))]
fn judge_correlation(cov: &[f64], rows: usize, w: usize, room: usize) -> Result<(), Refusal>
    ensures { result ≡ correlation_outcome cov.now rows w room }
{
    lent::squared(cov.len(), rows, w, room)?;
    refusal::refuse(w == 0, Refusal::DimensionMismatch)?;
    refusal::refuse(any_low(cov, w), Refusal::NoData)
}

// The correlations of a covariance.
#[tactic(auto, using(crate::proofs::Laws::correlation_done, lent::proofs::Laws::over_replicate), unfolding(crate::specs::Covariance::correlation_answer, crate::specs::Covariance::correlations, lent::specs::Lent::answer_of, lent::specs::Lent::laid))]
pub fn cov2corr(cov: &[f64], rows: usize, columns: usize, out: &mut [f64]) -> Result<Size, Refusal>
    ensures value { result ≡ correlation_answer cov.now rows columns (length out.old) }
    ensures out_after { out.new ≡ correlations cov.now rows columns (length out.old) }
{
    let said = judge_correlation(cov, rows, columns, out.len());
    lent::clear(out);
    said?;
    let std = roots(cov, columns);
    fill_cells(
        columns,
        out,
        |i, j| correlation_cell(cov, columns, &std, i, j),
    );
    Ok(Size {
        rows: columns,
        columns,
    })
}

#[tactic(auto, using(refusal::proofs::Tables::first_append), unfolding(crate::specs::Expected::expected_outcome, refusal::specs::Table::first, refusal::specs::Table::and_then, refusal::specs::Table::or_else))]
fn judge_expected(xs: &[f64], rows: usize, w: usize, room: usize) -> Result<(), Refusal>
    ensures { result ≡ expected_outcome xs.now rows w room }
{
    lent::sized(xs.len(), rows, w)?;
    refusal::refuse(room < w, Refusal::ShortBuffer)
}

// What f gives at each column is stored, over the front of out.
fn fill_with<F: Fn(usize) -> f64>(w: usize, out: &mut [f64], f: F)
    requires w_in_bounds { w ≤ length out.old }
    requires callable { (c : ℕ) → c < w → F.pre f c }
    ensures { (g : ℕ → Float) → ((c : ℕ) (v : Float) → c < w → F.post f c v → v ≡ g c)
        → out.new ≡ over (tab w g) out.old }
{
    for c in 0..w {
        out[c] = arithmetic::settled(f(c));
    }
}

// The mean of column c, times 252.
fn mean_return(xs: &[f64], rows: usize, w: usize, c: usize) -> f64
    requires xs_len { length xs.now ≡ rows * w }
    requires c_lt_w { c < w }
    ensures { result ≡ mean_return xs.now rows w c }
{
    if rows == 0 {
        return 0.0;
    }
    mean(xs, rows, w, c) * 252.0
}

// The expected return of each column, as the mean over a year.
#[tactic(auto, using(crate::proofs::Laws::expected_done, lent::proofs::Laws::over_replicate), unfolding(crate::specs::Expected::expected_answer, crate::specs::Expected::mean_returns, lent::specs::Lent::answer_of, lent::specs::Lent::laid))]
pub fn mean_expected_returns(
    returns: &[f64],
    rows: usize,
    columns: usize,
    out: &mut [f64],
) -> Result<Size, Refusal>
    ensures value { result ≡ expected_answer returns.now rows columns (length out.old) }
    ensures out_after { out.new ≡ mean_returns returns.now rows columns (length out.old) }
{
    let said = judge_expected(returns, rows, columns, out.len());
    lent::clear(out);
    said?;
    fill_with(columns, out, |c| mean_return(returns, rows, columns, c));
    Ok(Size { rows: 1, columns })
}

// The weighted mean of column c, newest row first, times 252.
fn exponential_return(xs: &[f64], rows: usize, w: usize, c: usize) -> f64
    requires xs_len { length xs.now ≡ rows * w }
    requires c_lt_w { c < w }
    ensures { result ≡ exponential_return xs.now rows w c }
{
    if rows == 0 {
        return 0.0;
    }
    let alpha = 2.0 / 501.0;
    let mut weight = 1.0;
    let mut num = 0.0;
    let mut denom = 0.0;
    for k in 0..rows {
        num += weight * at(xs, w, rows - 1 - k, c);
        denom += weight;
        weight *= 1.0 - alpha;
    }
    num / denom * 252.0
}

// The same with each older row counting less.
#[tactic(auto, using(crate::proofs::Laws::expected_done, lent::proofs::Laws::over_replicate), unfolding(crate::specs::Expected::expected_answer, crate::specs::Expected::exponential_returns, lent::specs::Lent::answer_of, lent::specs::Lent::laid))]
pub fn exponential_expected_returns(
    returns: &[f64],
    rows: usize,
    columns: usize,
    out: &mut [f64],
) -> Result<Size, Refusal>
    ensures value { result ≡ expected_answer returns.now rows columns (length out.old) }
    ensures out_after { out.new ≡ exponential_returns returns.now rows columns (length out.old) }
{
    let said = judge_expected(returns, rows, columns, out.len());
    lent::clear(out);
    said?;
    fill_with(
        columns,
        out,
        |c| exponential_return(returns, rows, columns, c),
    );
    Ok(Size { rows: 1, columns })
}
