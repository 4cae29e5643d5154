// The risk of a list of assets under a covariance: one copy for both allocators.
#![tactic(auto)]

ghost use Rattle.std.specs.Prelude.{◌≡◌, ℕ, ◌+◌, ◌*◌, ◌<◌, ◌≤◌, length, get_or, Ok};
ghost use Rattle.std.specs.Float.{nan, binary64};
ghost use Rattle.std.specs.Float.Ieee.{mul};
ghost use Rattle.arithmetic.specs.Constants.{pz};
ghost use Rattle.arithmetic.specs.Arithmetic.{max_of};
ghost use Rattle.refusal.specs.Table.{first};
ghost use Rattle.lent.specs.Grid.{cell, over, sum_to, sum_on, sum_rows};
ghost use Rattle.clusters.specs.Clusters.{nth, variance_at, recip_sum, shares, term, ratio, ratio_of, variance_of};
ghost use Rattle.clusters.specs.Clusters.{outside, any_listed_low, risk_table, size_table, shares_answer, shares_laid, variance_answer, sharpe_answer};
ghost use Rattle.clusters.specs.Inner.{ListedAssets};

use lent::Size;
use refusal::Refusal;

// Cell (r, c) of a matrix of w columns.
fn at(xs: &[f64], w: usize, r: usize, c: usize) -> f64
    requires { r * w + c < length xs.now }
    ensures { result ≡ cell xs.now w r c }
{
    xs[r * w + c]
}

// An asset number is above n - 1.
pub fn any_outside(n: usize, assets: &[usize]) -> bool
    ensures { result ≡ outside n assets.now }
{
    assets.iter().any(|a| n <= *a)
}

// The variance of asset a.
fn own_variance(cov: &[f64], n: usize, a: usize) -> f64
    requires { a * n + a < length cov.now }
    ensures { result ≡ variance_at cov.now n a }
{
    at(cov, n, a, a)
}

// A variance is 0 or below; a NaN isn't.
fn any_low(cov: &[f64], n: usize, assets: &[usize]) -> bool
    requires { ListedAssets cov.now n assets.now }
    ensures { result ≡ any_listed_low cov.now n assets.now }
{
    for &a in assets {
        if own_variance(cov, n, a) <= 0.0 {
            return true;
        }
    }
    false
}

fn recip_sum(cov: &[f64], n: usize, assets: &[usize]) -> f64
    requires { ListedAssets cov.now n assets.now }
    ensures { result ≡ recip_sum cov.now n assets.now }
{
    let mut s = 0.0;
    for &a in assets {
        s += 1.0 / own_variance(cov, n, a);
    }
    s
}

// The weights, at the front of out.
fn fill(cov: &[f64], n: usize, assets: &[usize], out: &mut [f64])
    requires listed_assets { ListedAssets cov.now n assets.now }
    requires assets_in_bounds { length assets.now ≤ length out.old }
    ensures { out.new ≡ over (shares cov.now n assets.now) out.old }
{
    let s = recip_sum(cov, n, assets);
    for (k, &a) in assets.iter().enumerate() {
        out[k] = arithmetic::settled(1.0 / own_variance(cov, n, a) / s);
    }
}

// The refusal that the sizes give. Nothing is read before it is known.
#[tactic(auto, unfolding(crate::specs::Clusters::size_table, refusal::specs::Table::first, refusal::specs::Table::or_else))]
fn judge_sizes(cov: &[f64], rows: usize, columns: usize, assets: &[usize]) -> Result<(), Refusal>
    ensures { result ≡ first (size_table cov.now rows columns assets.now) }
{
    refusal::refuse(lent::over_limit(rows, columns), Refusal::OverLimit)?;
    refusal::refuse(lent::MOST_ASSETS < assets.len(), Refusal::OverLimit)?;
    refusal::refuse(
        lent::has_other_length(cov.len(), rows, columns),
        Refusal::SliceLength,
    )
}

// The refusal that the asset numbers and the variances give. A variance is read once every asset number is known to be one.
#[tactic(auto, unfolding(crate::specs::Clusters::risk_table, refusal::specs::Table::first, refusal::specs::Table::or_else))]
fn judge_risk(cov: &[f64], n: usize, assets: &[usize]) -> Result<(), Refusal>
    requires cov_len { length cov.now ≡ n * n }
    requires assets_len_bound { length assets.now ≤ 64 }
    ensures { result ≡ first (risk_table cov.now n assets.now) }
{
    refusal::refuse(any_outside(n, assets), Refusal::NoTree)?;
    refusal::refuse(any_low(cov, n, assets), Refusal::NoData)?;
    refusal::refuse(recip_sum(cov, n, assets) <= 0.0, Refusal::NoData)
}

// 1/v over the sum of the reciprocals, for each asset listed.
#[tactic(auto, using(crate::proofs::Laws::shares_stages, crate::proofs::Laws::shares_done, crate::proofs::Laws::laid_refused_shares, crate::proofs::Laws::laid_done_shares), unfolding(refusal::specs::Table::and_then))]
pub fn inverse_variance_weights(
    cov: &[f64],
    rows: usize,
    columns: usize,
    assets: &[usize],
    out: &mut [f64],
) -> Result<Size, Refusal>
    ensures value { result ≡ shares_answer cov.now rows columns assets.now (length out.old) }
    ensures out_after { out.new ≡ shares_laid cov.now rows columns assets.now (length out.old) }
{
    lent::clear(out);
    judge_sizes(cov, rows, columns, assets)?;
    refusal::refuse(out.len() < assets.len(), Refusal::ShortBuffer)?;
    refusal::refuse(rows != columns, Refusal::DimensionMismatch)?;
    judge_risk(cov, columns, assets)?;
    fill(cov, columns, assets, out);
    Ok(Size {
        rows: 1,
        columns: assets.len(),
    })
}

// The terms of row i, added to v.
fn add_row(cov: &[f64], n: usize, assets: &[usize], w: &[f64; 64], i: usize, v: f64) -> f64
    requires listed_assets { ListedAssets cov.now n assets.now }
    requires i_in_bounds { i < length assets.now }
    ensures { result ≡ sum_on v (length assets.now) (term cov.now n assets.now w.now i) }
{
    let a = assets[i];
    let x = w[i];
    let mut s = v;
    for (j, &b) in assets.iter().enumerate() {
        s += x * at(cov, n, a, b) * w[j];
    }
    s
}

// Max with 0, so that NaN gives 0.
fn at_least_zero(v: f64) -> f64
    ensures { result ≡ max_of v pz }
{
    arithmetic::max(v, 0.0)
}

// The variance under the weights w.
fn weighted_variance(cov: &[f64], n: usize, assets: &[usize], w: &[f64; 64]) -> f64
    requires { ListedAssets cov.now n assets.now }
    ensures { result ≡ max_of (sum_rows (length assets.now) (length assets.now) (term cov.now n assets.now w.now)) pz }
{
    let mut v = 0.0;
    for i in 0..assets.len() {
        v = add_row(cov, n, assets, w, i, v);
    }
    at_least_zero(v)
}

fn variance(cov: &[f64], n: usize, assets: &[usize]) -> f64
    requires { ListedAssets cov.now n assets.now }
    ensures { result ≡ variance_of cov.now n assets.now }
{
    let mut w = [0.0; 64];
    fill(cov, n, assets, &mut w);
    arithmetic::settled(weighted_variance(cov, n, assets, &w))
}

// The double sum of weight, covariance and weight, or 0 where that is below 0 or NaN.
#[tactic(auto, using(crate::proofs::Laws::variance_stages, crate::proofs::Laws::variance_done), unfolding(refusal::specs::Table::and_then))]
pub fn cluster_variance(
    cov: &[f64],
    rows: usize,
    columns: usize,
    assets: &[usize],
) -> Result<f64, Refusal>
    ensures { result ≡ variance_answer cov.now rows columns assets.now }
{
    judge_sizes(cov, rows, columns, assets)?;
    refusal::refuse(rows != columns, Refusal::DimensionMismatch)?;
    judge_risk(cov, columns, assets)?;
    Ok(variance(cov, columns, assets))
}

// The weighted expected return.
fn expected_of(expected: &[f64], assets: &[usize], w: &[f64; 64]) -> f64
    requires assets_len_bound { length assets.now ≤ 64 }
    requires by_index { (k : ℕ) → k < length assets.now → nth assets.now k < length expected.now }
    ensures { result ≡ sum_to (length assets.now) (λ k. mul binary64 (get_or w.now k nan) (get_or expected.now (nth assets.now k) nan)) }
{
    let mut mu = 0.0;
    for (k, &a) in assets.iter().enumerate() {
        mu += w[k] * expected[a];
    }
    mu
}

#[tactic(auto, unfolding(crate::specs::Clusters::ratio))]
fn over_root(mu: f64, v: f64) -> f64
    ensures { result ≡ ratio mu v }
{
    if v <= 0.0 {
        return 0.0;
    }
    mu / arithmetic::sqrt(v)
}

fn sharpe(expected: &[f64], cov: &[f64], n: usize, assets: &[usize]) -> f64
    requires listed_assets { ListedAssets cov.now n assets.now }
    requires expected_len { length expected.now ≡ n }
    ensures { result ≡ ratio_of expected.now cov.now n assets.now }
{
    let mut w = [0.0; 64];
    fill(cov, n, assets, &mut w);
    let mu = expected_of(expected, assets, &w);
    let v = weighted_variance(cov, n, assets, &w);
    arithmetic::settled(over_root(mu, v))
}

// The weighted expected return over the root of the variance; 0 where the variance is 0.
#[tactic(auto, using(crate::proofs::Laws::sharpe_stages, crate::proofs::Laws::sharpe_done), unfolding(refusal::specs::Table::and_then))]
pub fn cluster_sharpe(
    expected: &[f64],
    cov: &[f64],
    rows: usize,
    columns: usize,
    assets: &[usize],
) -> Result<f64, Refusal>
    ensures { result ≡ sharpe_answer expected.now cov.now rows columns assets.now }
{
    judge_sizes(cov, rows, columns, assets)?;
    refusal::refuse(rows != columns, Refusal::DimensionMismatch)?;
    refusal::refuse(expected.len() != columns, Refusal::DimensionMismatch)?;
    judge_risk(cov, columns, assets)?;
    Ok(sharpe(expected, cov, columns, assets))
}
