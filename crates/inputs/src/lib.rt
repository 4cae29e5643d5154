// What both allocators do with the matrices that they are given.
#![tactic(auto)]

ghost use Rattle.std.specs.Prelude.{◌≡◌, length};
ghost use Rattle.refusal.specs.Table.{first};
ghost use Rattle.inputs.specs.Inputs.{absent, rows_of_shape, other_columns, other_size, matrix_lines, made_answer, made_laid};

use lent::Size;
use refusal::Refusal;

// Whether the matrix is not given.
#[tactic(auto, unfolding(crate::specs::Inputs::absent))]
pub fn is_absent(shape: Option<Size>) -> bool
    ensures { result ≡ absent shape }
{
    shape.is_none()
}

// Its rows, 0 where it is absent.
#[tactic(auto, unfolding(crate::specs::Inputs::rows_of_shape))]
pub fn rows_in(shape: Option<Size>) -> usize
    ensures { result ≡ rows_of_shape shape }
{
    shape.map_or(0, |s| s.rows)
}

// Given, with columns other than n.
#[tactic(auto, unfolding(crate::specs::Inputs::other_columns))]
pub fn has_other_columns(shape: Option<Size>, n: usize) -> bool
    ensures { result ≡ other_columns shape n }
{
    shape.is_some_and(|s| s.columns != n)
}

// Given, and not n by n.
#[tactic(auto, unfolding(crate::specs::Inputs::other_size))]
pub fn has_other_size(shape: Option<Size>, n: usize) -> bool
    ensures { result ≡ other_size shape n }
{
    shape.is_some_and(|s| s.rows != n || s.columns != n)
}

// The refusal that the sizes give, if there is one: 9 over all, then 10 over all.
#[tactic(auto, unfolding(crate::specs::Inputs::matrix_lines, refusal::specs::Table::first, refusal::specs::Table::or_else))]
pub fn judge_matrices(
    n: usize,
    prices: Option<Size>,
    prices_len: usize,
    returns: Option<Size>,
    returns_len: usize,
    covariance: Option<Size>,
    covariance_len: usize,
) -> Result<(), Refusal>
    ensures { result ≡ first (matrix_lines n prices prices_len returns returns_len covariance covariance_len) }
{
    refusal::refuse(lent::MOST_ASSETS < n, Refusal::OverLimit)?;
    refusal::refuse(lent::too_big(prices), Refusal::OverLimit)?;
    refusal::refuse(lent::too_big(returns), Refusal::OverLimit)?;
    refusal::refuse(lent::too_big(covariance), Refusal::OverLimit)?;
    refusal::refuse(lent::is_misfit(prices, prices_len), Refusal::SliceLength)?;
    refusal::refuse(lent::is_misfit(returns, returns_len), Refusal::SliceLength)?;
    refusal::refuse(
        lent::is_misfit(covariance, covariance_len),
        Refusal::SliceLength,
    )
}

// The returns of prices, sampled first into `sampled`, which holds any matrix.
fn difference(
    sampled: &mut [f64],
    prices: &[f64],
    rows: usize,
    columns: usize,
    step: usize,
    out: &mut [f64],
) -> Result<Size, Refusal>
    requires { length sampled.old ≡ 4096 }
    ensures value { result ≡ made_answer prices.now rows columns step (length out.old) }
    ensures out_after { out.new ≡ made_laid prices.now rows columns step (length out.old) }
{
    lent::clear(out);
    let kept = resample::resample_prices(prices, rows, columns, step, sampled)?.rows;
    let cells = kept * columns;
    resample::returns_from_prices(&sampled[..cells], kept, columns, out)
}

// The same, with room for the sample.
pub fn sampled_returns(
    prices: &[f64],
    rows: usize,
    columns: usize,
    step: usize,
    out: &mut [f64],
) -> Result<Size, Refusal>
    ensures value { result ≡ made_answer prices.now rows columns step (length out.old) }
    ensures out_after { out.new ≡ made_laid prices.now rows columns step (length out.old) }
{
    let mut sampled = [0.0; 4096];
    difference(&mut sampled, prices, rows, columns, step, out)
}
