// Reads a job text from standard input and writes its sheet, a line for each node of its tree, or the line of its refusal. A text that cannot be read to its end has
// neither.
#![tactic(auto)]

fn main(rt: HostRuntime) {
    // One byte more than a text may have tells 65,536 from more.
    let mut text = [0u8; 65537];
    let input = channel::read(rt, &mut text);
    let Some(n) = input else {
        return;
    };
    let mut out = [0u8; 8192];
    let listed = job::text_to_sheet(&text[..n], false, &mut out);
    printing::write_listed(rt, listed, &out);
}
