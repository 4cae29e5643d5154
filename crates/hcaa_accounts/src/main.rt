// Replays recorded accounts of HCAA. Reads them from standard input and writes the answers to standard output; both are lines of hex tokens, as
// oracle/README.md says. oracle/rust records them from the published Rust.
#![tactic(auto)]

ghost use Rattle.recorded.specs.Told.{Continues};

use linkage::{Distance, Linkage};
use recorded::{Buffer, Calls, Expected, Matrices, Tokens, Told};
use refusal::Refusal;

const DISTANCES: [Distance; 2] = [Distance::Correlation, Distance::DistanceOfDistances];

const LINKAGES: [Linkage; 4] = [
    Linkage::Single,
    Linkage::Complete,
    Linkage::Average,
    Linkage::Ward,
];

// What an account of HCAA begins with.
#[derive(Clone, Copy)]
struct Outset {
    distance: Distance,
    linkage: Linkage,
    metric: usize,
    method: usize,
    confidence: f64,
    clusters: Option<usize>,
    named: usize,
    assets: usize,
}

// The buffers of accounts.
#[derive(Drop)]
struct Buffers {
    rows: Buffer<usize, 200>,
    order: Buffer<usize, 100>,
    weights: Buffer<f64, 100>,
    scratch: Buffer<f64, 8300>,
}

type Cells = [f64; 13312];

// The names of a call stand in one list, the metric from 0.
type Names = [u8; 192];

const METHOD: usize = 64;

const NAME: usize = 128;

// ---- reading

fn clusters_of(given: usize, count: usize) -> Option<usize> {
    (given != 0).then_some(count)
}

fn opening(tokens: &mut Tokens, names: &mut Names) -> Outset {
    Outset {
        distance: recorded::choice(tokens.next(), &DISTANCES, Distance::DistanceOfDistances),
        linkage: recorded::choice(tokens.next(), &LINKAGES, Linkage::Ward),
        metric: tokens.fill_from(names, 0),
        method: tokens.fill_from(names, METHOD),
        confidence: tokens.next(),
        clusters: clusters_of(tokens.next(), tokens.next()),
        named: tokens.fill_from(names, NAME),
        assets: tokens.next(),
    }
}

// How many entries of each buffer are lent.
fn read_rooms(tokens: &mut Tokens, b: &mut Buffers) {
    b.rows.room = tokens.next();
    b.order.room = tokens.next();
    b.weights.room = tokens.next();
    b.scratch.room = tokens.next();
}

// ---- answers

// The buffers' answer for an account, and how many entries of what was lent are not zero past it, of scratch all.
#[tactic(auto, using(recorded::proofs::Laws::continues_none, recorded::proofs::Laws::continues_then))]
fn tell(outcome: Result<(), Refusal>, assets: usize, b: &Buffers, told: &mut Told)
    ensures { Continues told.old told.new }
{
    let n = recorded::answered(outcome, assets);
    let ids = recorded::ids_of(n);
    told.put_outcome(outcome);
    told.put_front(&b.rows.entries, ids);
    told.put_front(&b.order.entries, n);
    told.put_front(&b.weights.entries, n);
    let unclean = [
        b.rows.unclean_past(ids),
        b.order.unclean_past(n),
        b.weights.unclean_past(n),
        b.scratch.unclean_past(0),
    ];
    told.put_last(recorded::total(&unclean));
}

// ---- accounts

// The call itself, on what of each buffer is lent.
fn allot(
    h: Outset,
    m: Matrices,
    e: Expected,
    names: &Names,
    cells: &Cells,
    b: &mut Buffers,
) -> Result<(), Refusal> {
    let prices = m.prices;
    let returns = m.returns;
    let covariance = m.covariance;
    hcaa::allocate(
        h.assets,
        recorded::front(cells, prices.len),
        prices.shape,
        recorded::part(cells, recorded::RETURNS, returns.len),
        returns.shape,
        recorded::part(cells, recorded::COVARIANCE, covariance.len),
        covariance.shape,
        recorded::part(cells, recorded::EXPECTED, e.len),
        e.given,
        recorded::front(names, h.metric),
        recorded::part(names, METHOD, h.method),
        h.confidence,
        h.clusters,
        recorded::part(names, NAME, h.named),
        h.distance,
        h.linkage,
        b.rows.lend(),
        b.order.lend(),
        b.weights.lend(),
        b.scratch.lend(),
    )
}

// One account, in what the ones before it left.
#[tactic(auto, using(recorded::proofs::Laws::continues_none, recorded::proofs::Laws::continues_then))]
fn account(tokens: &mut Tokens, b: &mut Buffers, told: &mut Told)
    ensures { Continues told.old told.new }
{
    let mut names = [7u8; 192];
    let mut cells = [1.5; 13312];
    let h = opening(tokens, &mut names);
    let m = tokens.matrices(&mut cells);
    let e = tokens.expected(&mut cells);
    read_rooms(tokens, b);
    let outcome = allot(h, m, e, &names, &cells, b);
    tell(outcome, h.assets, b, told);
}

// Junk, once: what a call finds in an account's buffers is then what the calls before it left.
fn junk() -> Buffers {
    Buffers {
        rows: Buffer::new(7),
        order: Buffer::new(7),
        weights: Buffer::new(1.5),
        scratch: Buffer::new(1.5),
    }
}

impl Calls for Buffers {
    fn call(&mut self, _code: usize, tokens: &mut Tokens, told: &mut Told) {
        account(tokens, self, told);
    }
}

fn main(rt: HostRuntime) {
    let mut text = recorded::space();
    let Some(n) = channel::read_all(rt, &mut text) else {
        return;
    };
    let mut bytes = recorded::space();
    let mut told = Told::new(&mut bytes);
    recorded::replay(recorded::front(&text, n), &mut told, &mut junk());
    let end = told.end;
    channel::write(rt, recorded::front(&bytes, end));
}
