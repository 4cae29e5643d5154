// The month-end report on input that is read as it comes: bytes cut into lines.
#![tactic(auto)]

ghost use Rattle.std.specs.Prelude.{◌≡◌, List, ℕ, ◌≤◌, ◌<◌, length};
ghost use Rattle.refusal.specs.Table.{first};
ghost use Rattle.cutting.specs.Cutting.{Stream, byte_taken, bytes_taken};
ghost use Rattle.month.specs.Calls.{progress_of};
ghost use Rattle.cutting.specs.Calls.{feed_lines, feed_report, FeedBegun, TookBytes, FeedEnded};
ghost use Rattle.cutting.specs.Inner.{Running, Settled};

use month::{Fault, Tally};
use refusal::Refusal;

// Where the report stands, and how many bytes of a line that has begun are held.
#[derive(Clone, Copy)]
pub struct Feed {
    pub progress: Result<Tally, Fault>,
    pub held: usize,
}

// An empty table, no byte held, and the counts of a report on nothing.
pub fn begin_feed(table: &mut [usize], held: &mut [u8]) -> Feed
    ensures { FeedBegun table.old held.old result table.new held.new }
{
    lent::clear(held);
    let progress = month::begin_report(table);
    Feed { progress, held: 0 }
}

// 9, 10 and 11 of the two buffers, with so many names in the one and n bytes in the other.
#[tactic(auto, unfolding(crate::specs::Calls::feed_lines, refusal::specs::Table::first, refusal::specs::Table::or_else))]
fn judge_feed(names: usize, n: usize, cells: usize, room: usize) -> Result<(), Refusal>
    ensures { result ≡ first (feed_lines names n cells room) }
{
    refusal::refuse(ledger::MOST_NAMES < names, Refusal::OverLimit)?;
    refusal::refuse(slips::MOST_LINE < n, Refusal::OverLimit)?;
    refusal::refuse(cells != ledger::TABLE_CELLS, Refusal::SliceLength)?;
    refusal::refuse(room < slips::MOST_LINE + 1, Refusal::ShortBuffer)
}

// The counts, by what the buffers are.
fn judged(
    progress: Result<Tally, Fault>,
    n: usize,
    cells: usize,
    room: usize,
) -> Result<Tally, Fault>
    ensures { (t : List ℕ) → length t ≡ cells → result ≡ progress_of (feed_report progress n t room) }
{
    let y = progress?;
    month::at_line(judge_feed(y.names, n, cells, room), y.line)?;
    Ok(y)
}

// A byte that does not end its line is held; the line ends where it has become too long.
fn take_byte(table: &mut [usize], held: &mut [u8], feed: Feed, b: u8) -> Feed
    requires held_bound { feed.held ≤ 4357 }
    requires in_bounds { 4357 < length held.old }
    ensures held_bound_2 { result.held ≤ 4357 }
    ensures running { (S : Stream) (t₀ : List ℕ) → Running S t₀ feed table.old held.old → Running (byte_taken S b) t₀ result table.new held.new }
{
    let n = feed.held;
    let progress = feed.progress;
    if b == b'\n' {
        let after = month::take_line(table, progress, &held[..n]);
        return Feed {
            progress: after,
            held: 0,
        };
    }
    held[n] = b;
    if n < slips::MOST_LINE {
        return Feed {
            progress,
            held: n + 1,
        };
    }
    let after = month::take_line(table, progress, &held[..n + 1]);
    Feed {
        progress: after,
        held: 0,
    }
}

// Each byte of a piece.
fn take_each(table: &mut [usize], held: &mut [u8], feed: Feed, piece: &[u8]) -> Feed
    requires held_bound { feed.held ≤ 4357 }
    requires in_bounds { 4357 < length held.old }
    ensures held_bound_2 { result.held ≤ 4357 }
    ensures running { (S : Stream) (t₀ : List ℕ) → Running S t₀ feed table.old held.old → Running (bytes_taken S piece.now) t₀ result table.new held.new }
{
    let mut at = feed;
    for &b in piece {
        at = take_byte(table, held, at, b);
    }
    at
}

// Once the report is refused nothing is left in the buffers; else zeros stand after the names and after the held bytes.
fn settle(table: &mut [usize], held: &mut [u8], fed: Feed) -> Feed
    ensures { Settled fed table.old held.old result table.new held.new }
{
    match fed.progress {
        Err(_) => {
            lent::clear(table);
            lent::clear(held);
            Feed {
                progress: fed.progress,
                held: 0,
            }
        }
        Ok(y) => {
            ledger::clear_past(table, y.names);
            lent::clear_from(held, fed.held);
            fed
        }
    }
}

// A piece of the input, cut into lines. What was refused stays so; a refusal leaves zeros.
pub fn take_bytes(table: &mut [usize], held: &mut [u8], feed: Feed, piece: &[u8]) -> Feed
    ensures { TookBytes table.old held.old feed piece.now result table.new held.new }
{
    let progress = judged(feed.progress, feed.held, table.len(), held.len());
    let begun = Feed { progress, ..feed };
    if progress.is_err() {
        return settle(table, held, begun);
    }
    let fed = take_each(table, held, begun, piece);
    settle(table, held, fed)
}

// The end of the input: a line that has begun and not ended is at fault.
pub fn end_feed(held: &mut [u8], feed: Feed) -> Result<Tally, Fault>
    ensures { FeedEnded held.old feed result held.new }
{
    lent::clear(held);
    let y = feed.progress?;
    let broken = refusal::refuse(feed.held != 0, Refusal::MalformedText);
    month::at_line(broken, y.line)?;
    Ok(y)
}
