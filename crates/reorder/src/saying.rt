// A line on standard output.

// Writes a line: what is claimed, and whether it is so.
pub(crate) fn whether(rt: &impl Print, so: bool, claim: &str) {
    let verdict = if so { "yes" } else { "NO" };
    let _ = println!(rt; "{claim}: {verdict}");
}
