// Reads the listings of jobs from standard input, as they come, and writes the month-end report's page, or the line of its refusal; standard error then has the number of
// the line at fault. An input that cannot be read to its end has neither.
#![tactic(auto)]

use cutting::Feed;

// More reads than any input takes.
const MOST_READS: usize = 4_611_686_018_427_387_904;

// As many reads of what comes after a refusal.
const MOST_PASSED: usize = 65536;

// What comes after a refusal is read and passed over, so that what writes it is not cut off; input without end is left after a while.
fn pass_over(rt: HostRuntime, piece: &mut [u8], feed: Feed) -> Option<Feed> {
    for _ in 0..MOST_PASSED {
        let n = channel::read_piece(rt, piece)?;
        if n == 0 {
            return Some(feed);
        }
    }
    Some(feed)
}

// What the input came to, or none where it could not be read to its end. Each piece is taken as it is read. Once a line is
// at fault nothing is taken any more: whatever comes, the first decides.
fn take_input(
    rt: HostRuntime,
    table: &mut [usize],
    held: &mut [u8],
    piece: &mut [u8],
) -> Option<Feed> {
    let mut feed = cutting::begin_feed(table, held);
    for _ in 0..MOST_READS {
        let n = channel::read_piece(rt, piece)?;
        if n == 0 {
            return Some(feed);
        }
        feed = cutting::take_bytes(table, held, feed, &piece[..n]);
        let progress = feed.progress;
        if progress.is_err() {
            return pass_over(rt, piece, feed);
        }
    }
    channel::warn(
        rt,
        b"standard input is longer than the program takes: nothing is printed\n",
    );
    None
}

// The number of the line at fault, on standard error.
fn tell_fault(rt: HostRuntime, line: usize) {
    if line == 0 {
        return;
    }
    let mut digits = [0u8; 20];
    let d = io::decimal(line as u64, &mut digits);
    channel::warn(rt, b"line ");
    channel::warn(rt, &digits[..d]);
    channel::warn(rt, b" is at fault\n");
}

fn main(rt: HostRuntime) {
    let mut table = [0usize; 1792];
    let mut held = [0u8; 4358];
    let mut piece = [0u8; 4096];
    let Some(feed) = take_input(rt, &mut table, &mut held, &mut piece) else {
        return;
    };
    let progress = cutting::end_feed(&mut held, feed);
    let mut page = [0u8; 32768];
    let listed = pages::end_report(&mut table, progress, &mut page);
    printing::write_listed(rt, listed, &page);
    tell_fault(rt, pages::fault_line(progress));
}
