// Sharing out by halves of the leaf order, as HRP does.
#![tactic(auto)]

ghost use Rattle.std.specs.Prelude.{◌≡◌, ℕ, ◌<◌, length, get_or, set, Err};
ghost use Rattle.std.specs.Float.{nan, binary64};
ghost use Rattle.std.specs.Float.Ieee.{div};
ghost use Rattle.refusal.specs.Table.{first};
ghost use Rattle.refusal.specs.declared.Refusal.TheVariants.{NoData};
ghost use Rattle.lent.specs.Grid.{zeros, tab, sum_to};
ghost use Rattle.clusters.specs.Inner.{shared};
ghost use Rattle.bisection.specs.Bisection.{factor_of, middle, sides_factor, bisected, normal, bisection_shares, bisection_given, bisection_answer, bisection_weights};

use lent::Size;
use refusal::Refusal;
use tree::Asset;

const EPSILON: f64 = 2.220446049250313e-16;

// Not clamped.
#[tactic(auto, unfolding(clusters::specs::Shares::factor_of))]
fn factor(l: f64, r: f64) -> f64
    ensures { result ≡ factor_of l r }
{
    1.0 - l / (l + r + EPSILON)
}

// The factor of the first half, where both halves have a variance.
fn split(cov: &[f64], n: usize, part: &[usize], half: usize) -> Result<f64, Refusal>
    requires { half ≡ middle part.now }
    ensures { result ≡ sides_factor cov.now n part.now }
{
    let l = clusters::cluster_variance(cov, n, n, &part[..half])?;
    let r = clusters::cluster_variance(cov, n, n, &part[half..])?;
    Ok(factor(l, r))
}

// Gives an asset its weight.
fn give(asset: Asset, weight: f64, weights: &mut [f64])
    requires { asset.0 < length weights.old }
    ensures { weights.new ≡ set weights.old asset.0 weight }
{
    weights[asset.0] = arithmetic::settled(weight);
}

// Shares a weight out over a part of the leaf order; refused where a side is.
fn bisect(
    cov: &[f64],
    n: usize,
    part: &[usize],
    weight: f64,
    weights: &mut [f64],
) -> Result<(), Refusal>
    requires { (k : ℕ) → k < length part.now → get_or part.now k 0 < length weights.old }
    ensures { shared result weights.new ≡ bisected cov.now n part.now weight weights.old }
{
    let m = part.len();
    if m == 0 {
        return Ok(());
    }
    if m == 1 {
        give(Asset(part[0]), weight, weights);
        return Ok(());
    }
    let half = m / 2;
    let f = split(cov, n, part, half)?;
    bisect(cov, n, &part[..half], weight * f, weights)?;
    bisect(cov, n, &part[half..], weight * (1.0 - f), weights)
}

// The sum of the weights.
fn total(ws: &[f64]) -> f64
    ensures { result ≡ sum_to (length ws.now) (λ k. get_or ws.now k nan) }
{
    let mut s = 0.0;
    for &w in ws {
        s += w;
    }
    s
}

fn divide(ws: &mut [f64], s: f64)
    ensures { ws.new ≡ tab (length ws.old) (λ k. div binary64 (get_or ws.old k nan) s) }
{
    for w in ws.iter_mut() {
        *w = arithmetic::settled(*w / s);
    }
}

// Divides by the sum where that is above 0.
fn normalise(ws: &mut [f64])
    ensures { ws.new ≡ normal ws.old }
{
    let s = total(&ws[..]);
    if 0.0 < s {
        divide(ws, s);
    }
}

// The weights of n assets in a leaf order; refused where a side is.
fn share(cov: &[f64], n: usize, order: &[usize], weights: &mut [f64]) -> Result<(), Refusal>
    requires by_index { (k : ℕ) → k < length order.now → get_or order.now k 0 < n }
    requires weights_value { weights.old ≡ zeros n }
    ensures { shared result weights.new ≡ bisection_shares cov.now n order.now }
{
    bisect(cov, n, order, 1.0, weights)?;
    normalise(weights);
    Ok(())
}

// The refusal, if there is one, that comes before anything is shared out.
#[tactic(auto, using(crate::proofs::Laws::given_refused, crate::proofs::Laws::given_sized), unfolding(refusal::specs::Table::first, refusal::specs::Table::or_else))]
fn judge(
    cov: &[f64],
    rows: usize,
    columns: usize,
    order: &[usize],
    room: usize,
) -> Result<(), Refusal>
    ensures { result ≡ first (bisection_given cov.now rows columns order.now room) }
{
    lent::sized(cov.len(), rows, columns)?;
    refusal::refuse(room < columns, Refusal::ShortBuffer)?;
    refusal::refuse(rows != columns, Refusal::DimensionMismatch)?;
    refusal::refuse(!tree::is_order(order, columns), Refusal::NoTree)?;
    refusal::refuse(columns == 0, Refusal::NoData)
}

// A side's refusal leaves nothing of the weights given out before it.
fn refused(weights: &mut [f64]) -> Result<Size, Refusal>
    ensures value { result ≡ Err NoData }
    ensures weights_after { weights.new ≡ zeros (length weights.old) }
{
    lent::clear(weights);
    Err(Refusal::NoData)
}

// The weights of the assets, in the assets' own order, shared out down a given leaf order.
pub fn recursive_bisection_min_var(
    cov: &[f64],
    rows: usize,
    columns: usize,
    order: &[usize],
    out: &mut [f64],
) -> Result<Size, Refusal>
    ensures value { result ≡ bisection_answer cov.now rows columns order.now (length out.old) }
    ensures out_after { out.new ≡ bisection_weights cov.now rows columns order.now (length out.old) }
{
    let said = judge(cov, rows, columns, order, out.len());
    lent::clear(out);
    said?;
    if share(cov, columns, order, &mut out[..columns]).is_err() {
        return refused(out);
    }
    Ok(Size { rows: 1, columns })
}
