// The best pair of a scan of the merge step, and when a pair replaces it.
#![tactic(auto)]

ghost use Rattle.std.specs.Prelude.{◌≡◌, true, not, min, max};
ghost use Rattle.std.specs.Float.{binary64};
ghost use Rattle.std.specs.Float.Ieee.{sub, le};
ghost use Rattle.pairing.specs.Pairing.{eps, near, pair_before, better, pair, offer};
ghost use Rattle.pairing.specs.Inner.{Far};

use tree::Node;

// Distances no farther apart than this are a tie.
const EPS: f64 = 1e-12;

// A place of the working matrix, where a cluster stands: never read as a node's id.
#[derive(Clone, Copy)]
pub struct Slot(pub usize);

// The best pair so far: its slots, its distance, and its ids, the smaller first.
#[derive(Clone, Copy)]
pub struct Best {
    pub found: bool,
    pub a: Slot,
    pub b: Slot,
    pub dist: f64,
    pub low: Node,
    pub high: Node,
}

// A pair at distance x can never replace one at distance y: one test for both of `is_better`. Yes for NaN, of which neither holds.
pub fn is_far(x: f64, y: f64) -> bool
    ensures value { result ≡ not (le (sub binary64 x y) eps) }
    ensures far { result ≡ true → Far x y }
{
    !(x - y <= EPS)
}

// Never for NaN or two infinities, whose difference is NaN. Two comparisons are quicker than the absolute value.
fn is_near(x: f64, y: f64) -> bool
    ensures { result ≡ near x y }
{
    let z = x - y;
    -EPS <= z && z <= EPS
}

// (p, q) comes before (r, s). As tuples they would cost the merge step 3 percent more, by && and || twice the time of ties.
#[tactic(auto, unfolding(crate::specs::Pairing::pair_before))]
fn comes_before(p: Node, q: Node, r: Node, s: Node) -> bool
    ensures { result ≡ pair_before p.0 q.0 r.0 s.0 }
{
    if p.0 < r.0 {
        return true;
    }
    if p.0 == r.0 {
        return q.0 < s.0;
    }
    false
}

// The ids of a pair, the smaller first.
fn ordered(p: Node, q: Node) -> (Node, Node)
    ensures low { result.0.0 ≡ min p.0 q.0 }
    ensures high { result.1.0 ≡ max p.0 q.0 }
{
    (Node(p.0.min(q.0)), Node(p.0.max(q.0)))
}

// A pair of ids p and q at distance x replaces the best. The ids are put in order for a tie alone.
fn is_better(best: Best, x: f64, p: Node, q: Node) -> bool
    ensures { result ≡ better best x (min p.0 q.0) (max p.0 q.0) }
{
    if !best.found || x + EPS < best.dist {
        return true;
    }
    if is_near(x, best.dist) {
        let (low, high) = ordered(p, q);
        return comes_before(low, high, best.low, best.high);
    }
    false
}

// The pair of slots a, b at distance x, with ids p and q.
pub fn paired(a: Slot, b: Slot, x: f64, p: Node, q: Node) -> Best
    ensures { result ≡ pair a.0 b.0 x (min p.0 q.0) (max p.0 q.0) }
{
    let (low, high) = ordered(p, q);
    Best {
        found: true,
        a,
        b,
        dist: x,
        low,
        high,
    }
}

// The best after that pair. Nearly every pair of a scan is too far off: one subtraction and one comparison pass it over.
pub fn offered(a: Slot, b: Slot, x: f64, p: Node, q: Node, best: Best) -> Best
    ensures { result ≡ offer a.0 b.0 x p.0 q.0 best }
{
    if best.found && is_far(x, best.dist) {
        return best;
    }
    if is_better(best, x, p, q) {
        return paired(a, b, x, p, q);
    }
    best
}
