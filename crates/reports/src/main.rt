// Runs many reports. Their inputs stand in standard input, parted by a byte 0, and each is taken in pieces, of 1 to 61 bytes by the place where it stands. Of each its page is
// written, or the line of its refusal, and after it a line `--` with the number of the line at fault, or 0, and how many entries of the three lent buffers, past the page's end,
// are left that are not zero. oracle/reports.py makes all of it from the request's words.
#![tactic(auto)]

ghost use Rattle.std.specs.Prelude.{◌<◌, ◌≤◌};

use cutting::Feed;
use refusal::Refusal;

// A blank and a number. Answers whether all was taken.
fn write_number(rt: HostRuntime, n: usize) -> bool {
    let mut digits = [0u8; 20];
    let d = io::decimal(n as u64, &mut digits);
    channel::write(rt, b" ") && channel::write(rt, &digits[..d])
}

// What was made of an input. Answers whether all was taken.
fn write(rt: HostRuntime, listed: Result<usize, Refusal>, page: &[u8], fault: usize) -> bool {
    printing::write_listed(rt, listed, page) && channel::write(rt, b"--") && write_number(rt, fault)
}

// How much is left in the buffers, past the page's end.
fn write_left(rt: HostRuntime, table: &[usize], held: &[u8], rest: &[u8]) -> bool {
    write_number(rt, recorded::unclean(table))
        && write_number(rt, recorded::unclean(held))
        && write_number(rt, recorded::unclean(rest))
        && channel::write(rt, b"\n")
}

// An input in pieces of so many bytes.
fn take(table: &mut [usize], held: &mut [u8], text: &[u8], step: usize) -> Feed
    requires step_nonzero { 0 < step }
    requires step_bound { step ≤ 61 }
{
    let mut feed = cutting::begin_feed(table, held);
    for piece in text.chunks(step) {
        feed = cutting::take_bytes(table, held, feed, piece);
    }
    feed
}

// One input, in buffers full of junk, of just the length that they need.
fn run(rt: HostRuntime, text: &[u8], step: usize) -> bool
    requires step_nonzero { 0 < step }
    requires step_bound { step ≤ 61 }
{
    let mut table = [7usize; 1792];
    let mut held = [7u8; 4358];
    let mut page = [7u8; 32768];
    let feed = take(&mut table, &mut held, text, step);
    let progress = cutting::end_feed(&mut held, feed);
    let listed = pages::end_report(&mut table, progress, &mut page);
    let rest = recorded::past(&page, listing::bytes(listed));
    write(rt, listed, &page, pages::fault_line(progress)) && write_left(rt, &table, &held, rest)
}

// Every input, as long as what is written is taken.
fn run_all(rt: HostRuntime, inputs: &[u8]) {
    // the place where an input begins, or one that is as far from a multiple of 61
    let mut at = 0;
    for text in inputs.split(|byte| *byte == 0) {
        if !run(rt, text, 1 + at % 61) {
            return;
        }
        at = at % 61 + text.len() % 61 + 1;
    }
}

fn main(rt: HostRuntime) {
    let mut text = recorded::space();
    let Some(n) = channel::read_all(rt, &mut text) else {
        return;
    };
    run_all(rt, recorded::front(&text, n));
}
