// The page of a month-end report: bytes written into a lent buffer.
#![tactic(auto)]

ghost use Rattle.std.specs.Prelude.{◌≡◌, List, ℕ, ◌+◌, ◌*◌, ◌-◌, ◌≤◌, length, Ok, Err, MatchResult};
ghost use Rattle.refusal.specs.Table.{first};
ghost use Rattle.lent.specs.Grid.{noughts};
ghost use Rattle.writing.specs.Writing.{joined, Wrote, Fitting};
ghost use Rattle.ledger.specs.Ledger.{position_at};
ghost use Rattle.month.specs.Month.{closed};
ghost use Rattle.month.specs.Calls.{books_of, standing};
ghost use Rattle.listing.specs.Listing.{ListingMade};
ghost use Rattle.pages.specs.Pages.{figure, jobs_line, position_line, page_of, page_in, report_says, page_lines, end_outcome, ReportEnded, fault_line, TextReported};

use ledger::Position;
use month::{Fault, Tally};
use refusal::Refusal;

// 32,768 bytes hold every page.
pub const LEAST_PAGE: usize = 32768;

// A tab and a number.
fn put_figure(out: &mut [u8], at: usize, n: usize) -> usize
    ensures { Fitting out.old at (figure n) out.new result }
{
    let tabbed = writing::put_byte(out, at, b'\t');
    writing::put_decimal(out, tabbed, n as u64)
}

// The page's first line: `jobs`, accepted, refused.
fn put_jobs(out: &mut [u8], accepted: usize, refused: usize) -> usize
    requires { 47 ≤ length out.old }
    ensures { Wrote out.old 0 (jobs_line accepted refused) out.new result }
{
    let headed = writing::put_bytes(out, 0, b"jobs");
    let counted = put_figure(out, headed, accepted);
    let told = put_figure(out, counted, refused);
    writing::put_byte(out, told, b'\n')
}

// A name's line: the jobs that hold it, its smallest, largest and total millionths.
fn put_position(out: &mut [u8], at: usize, p: Position) -> usize
    requires { at + 101 ≤ length out.old }
    ensures { Wrote out.old at (position_line p) out.new result }
{
    let name = p.name;
    let named = keys::put_key(out, at, name);
    let counted = put_figure(out, named, p.jobs);
    let least = put_figure(out, counted, p.smallest);
    let most = put_figure(out, least, p.largest);
    let totalled = put_figure(out, most, p.total);
    writing::put_byte(out, totalled, b'\n')
}

// A line for each of the first n names, from a place on.
fn put_positions(table: &[usize], n: usize, out: &mut [u8], from: usize) -> usize
    requires table_len { length table.now ≡ 1792 }
    requires n_bound { n ≤ 256 }
    requires n_in_bounds { from + 101 * n ≤ length out.old }
    ensures { Wrote out.old from (joined n (λ i. position_line (position_at table.now i))) out.new result }
{
    let mut at = from;
    for i in 0..n {
        at = put_position(out, at, ledger::position_in(table, i));
    }
    at
}

// How many jobs were refused.
fn refused(y: Tally) -> usize
    ensures { result ≡ y.jobs - y.accepted }
{
    y.jobs.saturating_sub(y.accepted)
}

// The page, from the start of the buffer on; the answer is its length.
fn put_page(table: &[usize], y: Tally, page: &mut [u8]) -> usize
    requires table_len { length table.now ≡ 1792 }
    requires names_bound { y.names ≤ 256 }
    requires in_bounds { 32768 ≤ length page.old }
    ensures { Wrote page.old 0 (page_of (books_of y table.now)) page.new result }
{
    let headed = put_jobs(page, y.accepted, refused(y));
    put_positions(table, y.names, page, headed)
}

// The counts, or the refusal without its line.
fn counts(progress: Result<Tally, Fault>) -> Result<Tally, Refusal>
    ensures { MatchResult progress (λ y. result ≡ Ok y) (λ s. result ≡ Err s.refusal) }
{
    progress.map_err(|fault| fault.refusal)
}

// What a report says that ends so, with a table of so many numbers.
fn ended(progress: Result<Tally, Fault>, cells: usize) -> Result<(), Refusal>
    ensures { (t : List ℕ) → length t ≡ cells → result ≡ report_says (closed (standing progress t)) }
{
    let y = counts(progress)?;
    ledger::judge_table(cells, y.names)?;
    refusal::refuse(y.lines != 0, Refusal::MalformedText)
}

// 9, 10 and 11 of so many names, a table of so many numbers and room for a page.
#[tactic(auto, unfolding(crate::specs::Pages::page_lines, refusal::specs::Table::first, refusal::specs::Table::or_else))]
fn judge_page(names: usize, cells: usize, room: usize) -> Result<(), Refusal>
    ensures { result ≡ first (page_lines names cells room) }
{
    refusal::refuse(ledger::MOST_NAMES < names, Refusal::OverLimit)?;
    refusal::refuse(cells != ledger::TABLE_CELLS, Refusal::SliceLength)?;
    refusal::refuse(room < LEAST_PAGE, Refusal::ShortBuffer)
}

// 9, 10 and 11, then what the report says.
fn judge_end(cells: usize, room: usize, progress: Result<Tally, Fault>) -> Result<(), Refusal>
    ensures { (t : List ℕ) → length t ≡ cells → result ≡ end_outcome progress t room }
{
    judge_page(month::names_held(progress), cells, room)?;
    ended(progress, cells)
}

// The page of the counts, or the refusal.
fn print(
    table: &[usize],
    progress: Result<Tally, Fault>,
    said: Result<(), Refusal>,
    page: &mut [u8],
) -> Result<usize, Refusal>
    requires said_value { said ≡ end_outcome progress table.now (length page.old) }
    requires page_value { page.old ≡ noughts (length page.old) }
    ensures { ListingMade (end_outcome progress table.now (length page.old)) (page_in (closed (standing progress table.now))) (length page.old) result page.new }
{
    said?;
    let y = counts(progress)?;
    Ok(put_page(table, y, page))
}

// The end of the input: the page at the front of its buffer, or the refusal. The table is zero in either case.
pub fn end_report(
    table: &mut [usize],
    progress: Result<Tally, Fault>,
    page: &mut [u8],
) -> Result<usize, Refusal>
    ensures { ReportEnded table.old progress (length page.old) result table.new page.new }
{
    let said = judge_end(table.len(), page.len(), progress);
    lent::clear(page);
    let listed = print(table, progress, said, page);
    lent::clear(table);
    listed
}

// The number of the line at fault where the report ends so: of a job that is open, the line that is missing. 0 where there is none.
#[tactic(auto, unfolding(crate::specs::Pages::fault_line))]
pub fn fault_line(progress: Result<Tally, Fault>) -> usize
    ensures { result ≡ fault_line progress }
{
    match progress {
        Err(fault) => fault.line,
        Ok(y) => { if y.lines == 0 { 0 } else { y.line } }
    }
}

// A whole input at once: its page at the front of the buffer, or the refusal. The table and the held bytes are zero in either case.
pub fn text_to_page(
    text: &[u8],
    table: &mut [usize],
    held: &mut [u8],
    page: &mut [u8],
) -> Result<usize, Refusal>
    ensures { TextReported text.now table.old held.old (length page.old) result table.new held.new page.new }
{
    let begun = cutting::begin_feed(table, held);
    let fed = cutting::take_bytes(table, held, begun, text);
    let progress = cutting::end_feed(held, fed);
    end_report(table, progress, page)
}
