// What a job's text is answered by, printed: for the programs that read a text and print what a call made of it.
#![tactic(auto)]

ghost use Rattle.std.specs.Prelude.{◌≡◌, true, Ok};

use refusal::Refusal;

// The first k bytes, as many as there are. Answers whether all was taken.
fn write_front(rt: HostRuntime, out: &[u8], k: usize) -> bool
    ensures { k ≡ 0 → result ≡ true }
{
    if out.len() < k {
        return channel::write(rt, out);
    }
    channel::write(rt, &out[..k])
}

// The line of a refusal.
fn write_refusal(rt: HostRuntime, given: Refusal) -> bool {
    let mut line = [0u8; 16];
    let written = listing::refusal_line(given.number(), &mut line);
    write_front(rt, &line, listing::bytes(written))
}

// To standard output, what a call has written to the front of out, or the line of its refusal. Answers whether all was taken; nothing to write always is.
pub fn write_listed(rt: HostRuntime, listed: Result<usize, Refusal>, out: &[u8]) -> bool
    ensures { listed ≡ Ok 0 → result ≡ true }
{
    match listed {
        Ok(k) => write_front(rt, out, k),
        Err(given) => write_refusal(rt, given),
    }
}
