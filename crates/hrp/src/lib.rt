// Hierarchical risk parity: what is given, the covariance made from it where none is, and the allocation on that.
#![tactic(auto)]

ghost use Rattle.std.specs.Prelude.{◌≡◌, length, Ok};
ghost use Rattle.refusal.specs.Table.{first};
ghost use Rattle.lent.specs.Lent.{sizes};
ghost use Rattle.hrp.specs.Hrp.{HrpAllocated};
ghost use Rattle.hrp.specs.Inner.{HrpEstimated, HrpSampled, HrpFitting, HrpGathered, HrpGiven};

use lent::Size;
use linkage::Distance;
use refusal::Refusal;

// The covariance of returns, shrunk where that is asked, at the front of out.
fn estimate(
    returns: &[f64],
    rows: usize,
    n: usize,
    use_shrinkage: bool,
    out: &mut [f64],
) -> Result<(), Refusal>
    requires n_value { first (sizes (length returns.now) rows n) ≡ Ok tt }
    requires out_len { length out.old ≡ 4096 }
    ensures { HrpEstimated returns.now rows n use_shrinkage result out.new }
{
    if use_shrinkage {
        let mut plain = [0.0; 4096];
        stats::covariance(returns, rows, n, &mut plain)?;
        let m = n * n;
        stats::shrink_covariance(&plain[..m], n, n, out)?;
        return Ok(());
    }
    stats::covariance(returns, rows, n, out)?;
    Ok(())
}

// The same from prices, by way of the returns made from them.
fn estimate_from_prices(
    prices: &[f64],
    rows: usize,
    n: usize,
    step: usize,
    use_shrinkage: bool,
    out: &mut [f64],
) -> Result<(), Refusal>
    requires n_value { first (sizes (length prices.now) rows n) ≡ Ok tt }
    requires out_len { length out.old ≡ 4096 }
    ensures { HrpSampled prices.now rows n step use_shrinkage result out.new }
{
    let mut made = [0.0; 4096];
    let Size { rows: kept, .. } = inputs::sampled_returns(prices, rows, n, step, &mut made)?;
    let cells = kept * n;
    estimate(&made[..cells], kept, n, use_shrinkage, out)
}

// The covariance of a call that gives none, unless something is refused before, at the front of out: of its returns, else of its prices.
fn gather(
    said: Result<(), Refusal>,
    n: usize,
    prices: &[f64],
    prices_shape: Option<Size>,
    returns: &[f64],
    returns_shape: Option<Size>,
    covariance_shape: Option<Size>,
    step: usize,
    use_shrinkage: bool,
    out: &mut [f64],
) -> Result<(), Refusal>
    requires out_len { length out.old ≡ 4096 }
    requires hrp_fitting { HrpFitting said
        (record {
          assets = n;
          prices = prices.now;
          prices_shape = prices_shape;
          returns = returns.now;
          returns_shape = returns_shape;
          covariance_shape = covariance_shape;
          step = step;
          use_shrinkage = use_shrinkage;
        }) }
    ensures { HrpGathered said
        (record {
          assets = n;
          prices = prices.now;
          prices_shape = prices_shape;
          returns = returns.now;
          returns_shape = returns_shape;
          covariance_shape = covariance_shape;
          step = step;
          use_shrinkage = use_shrinkage;
        })
        result out.new }
{
    said?;
    if !inputs::is_absent(covariance_shape) {
        return Ok(());
    }
    match returns_shape {
        Some(Size { rows, .. }) => estimate(returns, rows, n, use_shrinkage, out),
        None => {
            let rows = inputs::rows_in(prices_shape);
            estimate_from_prices(prices, rows, n, step, use_shrinkage, out)
        }
    }
}

// A covariance is given, and nothing was refused.
fn is_given(said: Result<(), Refusal>, covariance: Option<Size>) -> bool
    ensures { HrpGiven said covariance result }
{
    if said.is_err() {
        return false;
    }
    !inputs::is_absent(covariance)
}

// The weights of the assets, with their tree, its leaf order and both matrices in that order: of the covariance that is given, else of one made from returns, else from prices.
pub fn allocate(
    assets: usize,
    prices: &[f64],
    prices_shape: Option<Size>,
    returns: &[f64],
    returns_shape: Option<Size>,
    covariance: &[f64],
    covariance_shape: Option<Size>,
    resample_by: &[u8],
    use_shrinkage: bool,
    distance: Distance,
    rows: &mut [usize],
    order: &mut [usize],
    weights: &mut [f64],
    seriated_correlations: &mut [f64],
    seriated_distances: &mut [f64],
    scratch: &mut [f64],
) -> Result<(), Refusal>
    ensures { HrpAllocated
        (record {
          assets = assets;
          prices = prices.now;
          prices_shape = prices_shape;
          returns = returns.now;
          returns_shape = returns_shape;
          covariance = covariance.now;
          covariance_shape = covariance_shape;
          resample_by = resample_by.now;
          use_shrinkage = use_shrinkage;
          distance = distance;
        })
        (record {
          rows = length rows.old;
          order = length order.old;
          weights = length weights.old;
          correlations = length seriated_correlations.old;
          distances = length seriated_distances.old;
          scratch = length scratch.old;
        })
        result rows.new order.new weights.new seriated_correlations.new seriated_distances.new scratch.new }
{
    let step = resample::freq_step(resample_by);
    let said = rooms::judge(
        assets,
        prices_shape,
        prices.len(),
        returns_shape,
        returns.len(),
        covariance_shape,
        covariance.len(),
        rows.len(),
        order.len(),
        weights.len(),
        seriated_correlations.len(),
        seriated_distances.len(),
        scratch.len(),
    );
    // used where it lies, before there is an array to make one in: its zeros would take as long as a step on few assets
    if is_given(said, covariance_shape) {
        return parity::allocate_covariance(
            covariance,
            assets,
            assets,
            distance,
            rows,
            order,
            weights,
            seriated_correlations,
            seriated_distances,
            scratch,
        );
    }
    let mut made = [0.0; 4096];
    if let Err(refused) = gather(
        said,
        assets,
        prices,
        prices_shape,
        returns,
        returns_shape,
        covariance_shape,
        step,
        use_shrinkage,
        &mut made,
    ) {
        rooms::clear_with_matrices(
            rows,
            order,
            weights,
            seriated_correlations,
            seriated_distances,
            scratch,
        );
        return Err(refused);
    }
    let m = assets * assets;
    parity::allocate_covariance(
        &made[..m],
        assets,
        assets,
        distance,
        rows,
        order,
        weights,
        seriated_correlations,
        seriated_distances,
        scratch,
    )
}
