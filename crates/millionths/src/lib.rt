// Weights in millionths that total 1,000,000: the whole parts, and one more each for the largest fractions left over.
#![tactic(auto)]

ghost use Rattle.std.specs.Prelude.{◌≡◌, ◌+◌, ◌-◌, ltb, length, get_or};
ghost use Rattle.lent.specs.Count.{one, upto};
ghost use Rattle.lent.specs.Grid.{tab, over};
ghost use Rattle.millionths.specs.Millionths.{millionths_outcome, millionths_laid};
ghost use Rattle.millionths.specs.Inner.{Wholes, judged, Served};

use refusal::Refusal;

const MILLION: usize = 1000000;

// The whole parts, added up.
fn total(wholes: &[usize]) -> usize
    requires { Wholes wholes.now }
    ensures { result ≡ upto (λ i. get_or wholes.now i 0) (length wholes.now) }
{
    wholes.iter().sum()
}

// 9, 11, what was said of the weights, then 18.
#[tactic(auto, unfolding(crate::specs::Inner::judged, refusal::specs::Table::or_else, refusal::specs::Table::and_then))]
fn judge(ranged: Result<(), Refusal>, total: usize, n: usize, room: usize) -> Result<(), Refusal>
    ensures { result ≡ judged ranged total n room }
{
    refusal::refuse(lent::MOST_ASSETS < n, Refusal::OverLimit)?;
    refusal::refuse(room < n, Refusal::ShortBuffer)?;
    ranged?;
    let off = MILLION < total || n < MILLION.saturating_sub(total);
    refusal::refuse(off, Refusal::TotalOutOfReach)
}

// Who has fewer than the missing amount before them is due.
fn fill(wholes: &[usize], ranks: &[usize], n: usize, missing: usize, out: &mut [usize])
    requires { Served wholes.now ranks.now n (length out.old) }
    ensures { out.new ≡ over (tab n (λ i. get_or wholes.now i 0 + one (ltb (get_or ranks.now i 0) missing))) out.old }
{
    for i in 0..n {
        out[i] = wholes[i] + usize::from(ranks[i] < missing);
    }
}

// Each weight in millionths, which total 1,000,000.
pub fn weights_in_millionths(weights: &[f64], out: &mut [usize]) -> Result<(), Refusal>
    ensures value { result ≡ millionths_outcome weights.now (length out.old) }
    ensures out_after { out.new ≡ millionths_laid weights.now (length out.old) }
{
    let n = weights.len();
    let mut wholes = [0usize; 64];
    let mut ranks = [0usize; 64];
    let ranged = fractions::rank_fractions(weights, &mut wholes, &mut ranks);
    let given = total(&wholes);
    let said = judge(ranged, given, n, out.len());
    lent::clear(out);
    said?;
    let missing = MILLION.saturating_sub(given);
    fill(&wholes, &ranks, n, missing, out);
    Ok(())
}
