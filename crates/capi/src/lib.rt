// The C interface: what rovignesc.h declares.
#![tactic(auto)]

ghost use Rattle.std.specs.Prelude.{◌≡◌, length};
ghost use Rattle.arithmetic.specs.Root.{root};
ghost use Rattle.linkage.specs.Names.{distance_named, linkage_named};
ghost use Rattle.lent.specs.Lent.{is_set, shape_of};
ghost use Rattle.foreign.specs.Foreign.{distance_meant, linkage_meant};
ghost use Rattle.capi.specs.Capi.{HrpAnswer, clusters_for, HcaaAnswer, CovarianceAnswer, MergeAnswer, LeafAnswer, ListingAnswer, SheetAnswer, LineAnswer};

use lent::Size;
use linkage::{Distance, Linkage, Merged};
use refusal::Refusal;
use tree::Node;

// The square root of a double.
#[unsafe(no_mangle)]
pub extern "C" fn rovignesc_sqrt(x: f64) -> f64
    ensures { result ≡ root x }
{
    arithmetic::sqrt(x)
}

// What it names, once it is known.
#[tactic(auto, unfolding(foreign::specs::Foreign::distance_meant))]
fn distance_in(name: &[u8]) -> Distance
    ensures { result ≡ distance_meant (distance_named name.now) }
{
    linkage::distance_named(name).unwrap_or(Distance::Correlation)
}

#[tactic(auto, unfolding(foreign::specs::Foreign::linkage_meant))]
fn linkage_in(name: &[u8]) -> Linkage
    ensures { result ≡ linkage_meant (linkage_named name.now) }
{
    linkage::linkage_named(name).unwrap_or(Linkage::Single)
}

// Hierarchical risk parity.
#[unsafe(no_mangle)]
pub extern "C" fn rovignesc_hrp(
    assets: usize,
    prices: &[f64],
    prices_given: u8,
    prices_rows: usize,
    prices_columns: usize,
    returns: &[f64],
    returns_given: u8,
    returns_rows: usize,
    returns_columns: usize,
    covariance: &[f64],
    covariance_given: u8,
    covariance_rows: usize,
    covariance_columns: usize,
    resample_by: &[u8],
    use_shrinkage: u8,
    distance: &[u8],
    rows: &mut [usize],
    order: &mut [usize],
    weights: &mut [f64],
    seriated_correlations: &mut [f64],
    seriated_distances: &mut [f64],
    scratch: &mut [f64],
) -> u8
    ensures { HrpAnswer
        (record {
          assets = assets;
          prices = prices.now;
          prices_shape = shape_of (is_set prices_given) prices_rows prices_columns;
          returns = returns.now;
          returns_shape = shape_of (is_set returns_given) returns_rows returns_columns;
          covariance = covariance.now;
          covariance_shape = shape_of (is_set covariance_given) covariance_rows covariance_columns;
          resample_by = resample_by.now;
          use_shrinkage = is_set use_shrinkage;
          distance = distance_meant (distance_named distance.now);
        })
        distance.now
        (record {
          rows = length rows.old;
          order = length order.old;
          weights = length weights.old;
          correlations = length seriated_correlations.old;
          distances = length seriated_distances.old;
          scratch = length scratch.old;
        })
        result rows.new order.new weights.new seriated_correlations.new seriated_distances.new scratch.new }
{
    let prices_shape = lent::shape_if(prices_given != 0, prices_rows, prices_columns);
    let returns_shape = lent::shape_if(returns_given != 0, returns_rows, returns_columns);
    let covariance_shape = lent::shape_if(
        covariance_given != 0,
        covariance_rows,
        covariance_columns,
    );
    let said = foreign::judge_hrp(
        assets,
        prices_shape,
        prices.len(),
        returns_shape,
        returns.len(),
        covariance_shape,
        covariance.len(),
        rows.len(),
        order.len(),
        weights.len(),
        seriated_correlations.len(),
        seriated_distances.len(),
        scratch.len(),
        distance,
    );
    let Ok(()) = said else {
        rooms::clear_with_matrices(
            rows,
            order,
            weights,
            seriated_correlations,
            seriated_distances,
            scratch,
        );
        return foreign::number(said);
    };
    foreign::number(hrp::allocate(
        assets,
        prices,
        prices_shape,
        returns,
        returns_shape,
        covariance,
        covariance_shape,
        resample_by,
        use_shrinkage != 0,
        distance_in(distance),
        rows,
        order,
        weights,
        seriated_correlations,
        seriated_distances,
        scratch,
    ))
}

// Into how many clusters the tree is cut.
#[tactic(auto, using(std::proofs::lemmas::Bool::Decides::nat_tests), unfolding(crate::specs::Capi::clusters_for))]
fn clusters_in(given: u8, count: usize) -> Option<usize>
    ensures { result ≡ clusters_for given count }
{
    (given != 0).then_some(count)
}

// Hierarchical clustering-based asset allocation.
#[unsafe(no_mangle)]
pub extern "C" fn rovignesc_hcaa(
    assets: usize,
    prices: &[f64],
    prices_given: u8,
    prices_rows: usize,
    prices_columns: usize,
    returns: &[f64],
    returns_given: u8,
    returns_rows: usize,
    returns_columns: usize,
    covariance: &[f64],
    covariance_given: u8,
    covariance_rows: usize,
    covariance_columns: usize,
    expected: &[f64],
    expected_given: u8,
    metric: &[u8],
    method: &[u8],
    confidence: f64,
    clusters_given: u8,
    clusters: usize,
    resample_by: &[u8],
    distance: &[u8],
    linkage: &[u8],
    rows: &mut [usize],
    order: &mut [usize],
    weights: &mut [f64],
    scratch: &mut [f64],
    asked: &mut [usize],
) -> u8
    ensures { HcaaAnswer
        (record {
          assets = assets;
          prices = prices.now;
          prices_shape = shape_of (is_set prices_given) prices_rows prices_columns;
          returns = returns.now;
          returns_shape = shape_of (is_set returns_given) returns_rows returns_columns;
          covariance = covariance.now;
          covariance_shape = shape_of (is_set covariance_given) covariance_rows covariance_columns;
          expected = expected.now;
          expected_given = is_set expected_given;
          metric = metric.now;
          method = method.now;
          confidence = confidence;
          clusters = clusters_for clusters_given clusters;
          resample_by = resample_by.now;
          distance = distance_meant (distance_named distance.now);
          linkage = linkage_meant (linkage_named linkage.now);
        })
        linkage.now distance.now
        (record {
          rows = length rows.old;
          order = length order.old;
          weights = length weights.old;
          scratch = length scratch.old;
        })
        (length asked.old) result rows.new order.new weights.new scratch.new asked.new }
{
    let prices_shape = lent::shape_if(prices_given != 0, prices_rows, prices_columns);
    let returns_shape = lent::shape_if(returns_given != 0, returns_rows, returns_columns);
    let covariance_shape = lent::shape_if(
        covariance_given != 0,
        covariance_rows,
        covariance_columns,
    );
    let said = foreign::judge_hcaa(
        assets,
        prices_shape,
        prices.len(),
        returns_shape,
        returns.len(),
        covariance_shape,
        covariance.len(),
        rows.len(),
        order.len(),
        weights.len(),
        scratch.len(),
        asked.len(),
        linkage,
        distance,
    );
    let Ok(()) = said else {
        rooms::clear_all(rows, order, weights, scratch);
        return foreign::tell(said, asked);
    };
    let answer = hcaa::allocate(
        assets,
        prices,
        prices_shape,
        returns,
        returns_shape,
        covariance,
        covariance_shape,
        expected,
        expected_given != 0,
        metric,
        method,
        confidence,
        clusters_in(clusters_given, clusters),
        resample_by,
        distance_in(distance),
        linkage_in(linkage),
        rows,
        order,
        weights,
        scratch,
    );
    foreign::tell(answer, asked)
}

// The covariance of the columns of a matrix of returns.
#[unsafe(no_mangle)]
pub extern "C" fn rovignesc_covariance(
    returns: &[f64],
    returns_rows: usize,
    returns_columns: usize,
    covariance: &mut [f64],
) -> u8
    ensures { CovarianceAnswer returns.now returns_rows returns_columns (length covariance.old) result covariance.new }
{
    foreign::number(lent::told(stats::covariance(
        returns,
        returns_rows,
        returns_columns,
        covariance,
    )))
}

// The merge step, and how many pairs of slots it looked at.
#[unsafe(no_mangle)]
pub extern "C" fn rovignesc_linkage_children(
    distances: &[f64],
    distances_rows: usize,
    distances_columns: usize,
    linkage: &[u8],
    rows: &mut [usize],
    pairs: &mut [usize],
) -> u8
    ensures { MergeAnswer distances.now distances_rows distances_columns linkage.now (length rows.old) (length pairs.old) result rows.new pairs.new }
{
    let said = foreign::judge_merge(
        distances.len(),
        distances_rows,
        distances_columns,
        rows.len(),
        pairs.len(),
        linkage,
    );
    lent::clear(pairs);
    let Ok(()) = said else {
        lent::clear(rows);
        return foreign::number(said);
    };
    let answer = linkage::linkage_children(
        distances,
        distances_rows,
        distances_columns,
        linkage_in(linkage),
        rows,
    );
    match answer {
        Ok(Merged { pairs: count, .. }) => {
            pairs[0] = count;
            0
        }
        Err(refusal) => foreign::number(Err(refusal)),
    }
}

// The leaf order, and how many leaves there are.
#[unsafe(no_mangle)]
pub extern "C" fn rovignesc_quasi_diagonalization(
    rows: &[usize],
    assets: usize,
    node: usize,
    order: &mut [usize],
    leaves: &mut [usize],
) -> u8
    ensures { LeafAnswer rows.now assets node (length order.old) (length leaves.old) result order.new leaves.new }
{
    let said = foreign::judge_leaves(assets, order.len(), leaves.len());
    lent::clear(leaves);
    let Ok(()) = said else {
        lent::clear(order);
        return foreign::number(said);
    };
    let answer = tree::quasi_diagonalization(rows, assets, Node(node), order);
    let Ok(Size { columns: count, .. }) = answer else {
        return foreign::number(lent::told(answer));
    };
    leaves[0] = count;
    0
}

// A job text to its listing, and how many bytes of it there are.
#[unsafe(no_mangle)]
pub extern "C" fn rovignesc_listing(text: &[u8], listing: &mut [u8], bytes: &mut [usize]) -> u8
    ensures { ListingAnswer text.now (length listing.old) (length bytes.old) result listing.new bytes.new }
{
    lent::clear(bytes);
    if bytes.len() < 1 {
        lent::clear(listing);
        return foreign::number(foreign::judge_bytes(text.len(), bytes.len()));
    }
    let listed = job::text_to_listing(text, listing);
    bytes[0] = listing::bytes(listed);
    foreign::number_listed(listed)
}

// A job text to its sheet, and how many bytes of it there are.
#[unsafe(no_mangle)]
pub extern "C" fn rovignesc_sheet(
    text: &[u8],
    named: u8,
    sheet: &mut [u8],
    bytes: &mut [usize],
) -> u8
    ensures { SheetAnswer text.now named (length sheet.old) (length bytes.old) result sheet.new bytes.new }
{
    lent::clear(bytes);
    if bytes.len() < 1 {
        lent::clear(sheet);
        return foreign::number(foreign::judge_bytes(text.len(), bytes.len()));
    }
    let listed = job::text_to_sheet(text, named != 0, sheet);
    bytes[0] = listing::bytes(listed);
    foreign::number_listed(listed)
}

// The line of a refusal's number, and how many bytes of it there are.
#[unsafe(no_mangle)]
pub extern "C" fn rovignesc_refusal_line(number: u8, line: &mut [u8], bytes: &mut [usize]) -> u8
    ensures { LineAnswer number (length line.old) (length bytes.old) result line.new bytes.new }
{
    lent::clear(bytes);
    if bytes.len() < 1 {
        lent::clear(line);
        return Refusal::ShortBuffer.number();
    }
    let listed = listing::refusal_line(number, line);
    bytes[0] = listing::bytes(listed);
    foreign::number_listed(listed)
}
