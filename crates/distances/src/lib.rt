// Distances of correlations, and distances of distances: square matrices in slices, row after row.
#![tactic(auto)]

ghost use Rattle.std.specs.Prelude.{◌≡◌, ◌+◌, ◌*◌, ◌<◌, ◌≤◌, length, set};
ghost use Rattle.lent.specs.Grid.{cell, grid, over};
ghost use Rattle.distances.specs.Distances.{distance_of, distance_cell, distance_answer, distances, off_diagonal, between_cell, betweens};
ghost use Rattle.lent.specs.Inner.{Held};
ghost use Rattle.distances.specs.Inner.{Picked, sum_of, with_square};

use lent::Size;
use refusal::Refusal;

// Which allocator's distance.
#[derive(Clone, Copy)]
pub enum Measure {
    Hrp,
    Hcaa,
}

// Cell (r, c) of a matrix of w columns.
fn at(xs: &[f64], w: usize, r: usize, c: usize) -> f64
    requires { r * w + c < length xs.now }
    ensures { result ≡ cell xs.now w r c }
{
    xs[r * w + c]
}

fn put(xs: &mut [f64], w: usize, r: usize, c: usize, v: f64)
    requires { r * w + c < length xs.old }
    ensures { xs.new ≡ set xs.old (r * w + c) v }
{
    xs[r * w + c] = v;
}

// A NaN correlation stays NaN up to the max, and so has distance 0.
fn distance(of: Measure, corr: f64) -> f64
    ensures { result ≡ distance_of of corr }
{
    let c = arithmetic::clamp(corr, -1.0, 1.0);
    match of {
        Measure::Hrp => arithmetic::sqrt(arithmetic::max(1.0 - c, 0.0) / 2.0),
        Measure::Hcaa => arithmetic::sqrt(arithmetic::max(2.0 * (1.0 - c), 0.0)),
    }
}

// Cell (i, j), after the rows above it: where the cell across the diagonal is the same, so is its distance, and a root is spared.
fn distance_cell(of: Measure, corr: &[f64], n: usize, i: usize, j: usize, done: &[f64]) -> f64
    requires corr_len { length corr.now ≡ n * n }
    requires i_lt_n { i < n }
    requires j_lt_n { j < n }
    requires n_in_bounds { n * n ≤ length done.now }
    requires i_value { j < i → cell done.now n j i ≡ distance_cell of corr.now n j i }
    ensures { result ≡ distance_cell of corr.now n i j }
{
    let x = at(corr, n, i, j);
    if j < i && arithmetic::to_bits(x) == arithmetic::to_bits(at(corr, n, j, i)) {
        return at(done, n, j, i);
    }
    distance(of, x)
}

// Row i, after the rows above it.
fn distance_row(of: Measure, corr: &[f64], n: usize, i: usize, out: &mut [f64])
    requires corr_len { length corr.now ≡ n * n }
    requires i_lt_n { i < n }
    requires n_in_bounds { n * n ≤ length out.old }
    requires out_value { over (grid i n (distance_cell of corr.now n)) out.old ≡ out.old }
    ensures { out.new ≡ over (grid (i + 1) n (distance_cell of corr.now n)) out.old }
{
    for j in 0..n {
        let v = arithmetic::settled(distance_cell(of, corr, n, i, j, &out[..]));
        put(out, n, i, j, v);
    }
}

fn fill_distances(of: Measure, corr: &[f64], n: usize, out: &mut [f64])
    requires corr_len { length corr.now ≡ n * n }
    requires n_in_bounds { n * n ≤ length out.old }
    ensures { out.new ≡ over (grid n n (distance_cell of corr.now n)) out.old }
{
    for i in 0..n {
        distance_row(of, corr, n, i, out);
    }
}

#[tactic(auto, using(lent::proofs::Sizes::squared_done, lent::proofs::Laws::over_replicate), unfolding(crate::specs::Distances::distance_outcome, crate::specs::Distances::distance_answer, crate::specs::Distances::distances, lent::specs::Lent::answer_of, lent::specs::Lent::laid))]
pub fn corr_to_distances(
    of: Measure,
    corr: &[f64],
    rows: usize,
    columns: usize,
    out: &mut [f64],
) -> Result<Size, Refusal>
    ensures value { result ≡ distance_answer corr.now rows columns (length out.old) }
    ensures out_after { out.new ≡ distances of corr.now rows columns (length out.old) }
{
    let said = lent::squared(corr.len(), rows, columns, out.len());
    lent::clear(out);
    said?;
    fill_distances(of, corr, columns, out);
    Ok(Size {
        rows: columns,
        columns,
    })
}

// Cell (k, i), the diagonal taken as 0.
fn off_diagonal(d: &[f64], n: usize, k: usize, i: usize) -> f64
    requires d_len { length d.now ≡ n * n }
    requires k_lt_n { k < n }
    requires i_lt_n { i < n }
    ensures { result ≡ off_diagonal d.now n k i }
{
    let x = at(d, n, k, i);
    if k == i { 0.0 } else { x }
}

// The squares of x less each cell of row k, added to the sums of each column after i, which so go side by side. The diagonal is read as it is, so that no cell is asked whether it is one.
fn add_squares(d: &[f64], n: usize, i: usize, k: usize, x: f64, sums: &mut [f64; 64])
    requires d_len { length d.now ≡ n * n }
    requires n_bound { n ≤ 64 }
    requires i_lt_n { i < n }
    requires k_lt_n { k < n }
    requires held { Held sums.old (i + 1) n (sum_of d.now n i k) }
    ensures { Held sums.new (i + 1) n (with_square d.now n i k x) }
{
    for j in i + 1..n {
        let y = x - at(d, n, k, j);
        sums[j] = sums[j] + y * y;
    }
}

// Row k's terms are added to the sums of each column after i. Column k's is mended after it, whose cell is the diagonal's and taken as 0.
fn add_row(d: &[f64], n: usize, i: usize, k: usize, sums: &mut [f64; 64])
    requires d_len { length d.now ≡ n * n }
    requires n_bound { n ≤ 64 }
    requires i_lt_n { i < n }
    requires k_lt_n { k < n }
    requires held { Held sums.old (i + 1) n (sum_of d.now n i k) }
    ensures { Held sums.new (i + 1) n (sum_of d.now n i (k + 1)) }
{
    let x = off_diagonal(d, n, k, i);
    let before = sums[k];
    add_squares(d, n, i, k, x, sums);
    if i < k {
        let y = x - 0.0;
        sums[k] = before + y * y;
    }
}

// The sums of column i and each column after it.
fn sums_of(d: &[f64], n: usize, i: usize) -> [f64; 64]
    requires d_len { length d.now ≡ n * n }
    requires n_bound { n ≤ 64 }
    requires i_lt_n { i < n }
    ensures { Held result (i + 1) n (sum_of d.now n i n) }
{
    let mut sums = [0.0; 64];
    for k in 0..n {
        add_row(d, n, i, k, &mut sums);
    }
    sums
}

// Cell (i, j), after the rows above it: left of the diagonal it is copied from across it, so that each pair is worked out once.
fn between_cell(sums: &[f64; 64], n: usize, i: usize, j: usize, out: &[f64]) -> f64
    requires n_bound { n ≤ 64 }
    requires i_lt_n { i < n }
    requires j_lt_n { j < n }
    requires n_in_bounds { n * n ≤ length out.now }
    ensures { Picked result sums.now out.now n i j }
{
    if j < i {
        return at(out, n, j, i);
    }
    if i == j {
        0.0
    } else {
        arithmetic::sqrt(sums[j])
    }
}

// Row i, after the rows above it.
fn fill_row(d: &[f64], n: usize, i: usize, out: &mut [f64])
    requires d_len { length d.now ≡ n * n }
    requires n_bound { n ≤ 64 }
    requires i_lt_n { i < n }
    requires n_in_bounds { n * n ≤ length out.old }
    requires out_value { over (grid i n (between_cell d.now n)) out.old ≡ out.old }
    ensures { out.new ≡ over (grid (i + 1) n (between_cell d.now n)) out.old }
{
    let sums = sums_of(d, n, i);
    for j in 0..n {
        let v = arithmetic::settled(between_cell(&sums, n, i, j, &out[..]));
        put(out, n, i, j, v);
    }
}

fn fill_betweens(d: &[f64], n: usize, out: &mut [f64])
    requires d_len { length d.now ≡ n * n }
    requires n_bound { n ≤ 64 }
    requires n_in_bounds { n * n ≤ length out.old }
    ensures { out.new ≡ over (grid n n (between_cell d.now n)) out.old }
{
    for i in 0..n {
        fill_row(d, n, i, out);
    }
}

#[tactic(auto, using(lent::proofs::Sizes::squared_done, lent::proofs::Laws::over_replicate), unfolding(crate::specs::Distances::distance_outcome, crate::specs::Distances::distance_answer, crate::specs::Distances::betweens, lent::specs::Lent::answer_of, lent::specs::Lent::laid))]
pub fn distance_of_distances(
    d: &[f64],
    rows: usize,
    columns: usize,
    out: &mut [f64],
) -> Result<Size, Refusal>
    ensures value { result ≡ distance_answer d.now rows columns (length out.old) }
    ensures out_after { out.new ≡ betweens d.now rows columns (length out.old) }
{
    let said = lent::squared(d.len(), rows, columns, out.len());
    lent::clear(out);
    said?;
    fill_betweens(d, columns, out);
    Ok(Size {
        rows: columns,
        columns,
    })
}
