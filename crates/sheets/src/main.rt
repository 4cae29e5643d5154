// Runs many job texts. They stand in standard input, parted by a byte 0. Of each its listing, its sheet and its sheet with names are written, or the line of its
// refusal in the place of each, and after each a line `--`, on which stands how many bytes past it the call left that are not zero: of all of them after a refusal.
// oracle/sheets.py makes all three from the documents' words.
#![tactic(auto)]

use refusal::Refusal;

// What a call made of a text, and the line after it. Answers whether all was taken.
fn write(rt: HostRuntime, listed: Result<usize, Refusal>, out: &[u8]) -> bool {
    let mut digits = [0u8; 20];
    let rest = recorded::past(out, listing::bytes(listed));
    let d = io::decimal(recorded::unclean(rest) as u64, &mut digits);
    printing::write_listed(rt, listed, out)
        && channel::write(rt, b"-- ")
        && channel::write(rt, &digits[..d])
        && channel::write(rt, b"\n")
}

// Each call has a buffer full of junk, of just the length that it needs.
fn run_listing(rt: HostRuntime, text: &[u8]) -> bool {
    let mut out = [7u8; 8192];
    let listed = job::text_to_listing(text, &mut out);
    write(rt, listed, &out)
}

fn run_sheet(rt: HostRuntime, text: &[u8]) -> bool {
    let mut out = [7u8; 8192];
    let listed = job::text_to_sheet(text, false, &mut out);
    write(rt, listed, &out)
}

fn run_named_sheet(rt: HostRuntime, text: &[u8]) -> bool {
    let mut out = [7u8; 32768];
    let listed = job::text_to_sheet(text, true, &mut out);
    write(rt, listed, &out)
}

// One text, in its three forms.
fn run(rt: HostRuntime, text: &[u8]) -> bool {
    run_listing(rt, text) && run_sheet(rt, text) && run_named_sheet(rt, text)
}

// Every text, as long as what is written is taken.
fn run_all(rt: HostRuntime, texts: &[u8]) {
    for text in texts.split(|byte| *byte == 0) {
        if !run(rt, text) {
            return;
        }
    }
}

fn main(rt: HostRuntime) {
    let mut text = recorded::space();
    let Some(n) = channel::read_all(rt, &mut text) else {
        return;
    };
    run_all(rt, recorded::front(&text, n));
}
