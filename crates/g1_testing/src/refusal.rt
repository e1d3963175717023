const MEMORY: &[u8] = b"fault 13: memory\n";

/// Whether a call that was refused memory left what it may, as a driver of calls by name prints it: a beginning of its
/// answer, then `Memory`, and the image that it was given if it is a call that hands that back. `step` gives each command
/// again that was refused, so that its replies are those of the answer.
pub fn is_refusal(call: &str, found: &[u8], answer: &[u8], given: &[u8]) -> bool {
    let back = match call {
        "step" => return is_without_memory(found, answer),
        // An image of version 1 comes back in version 2, as it does when it is not refused.
        "verify" if !given.starts_with(b"G1IMAGE2") => answer,
        "verify" | "evacuate" | "report" => given,
        _ => &[],
    };
    let Some(told) = found.strip_suffix(back) else {
        return false;
    };
    match told.strip_suffix(MEMORY) {
        Some(front) => answer.starts_with(front),
        None => false,
    }
}

/// Whether the lines that do not say `Memory` are the answer. They are text.
fn is_without_memory(found: &[u8], answer: &[u8]) -> bool {
    let Ok(lines) = str::from_utf8(found) else {
        return false;
    };
    let mut rest = answer;
    for line in lines.split_inclusive('\n') {
        if line.as_bytes() != MEMORY {
            match rest.strip_prefix(line.as_bytes()) {
                Some(more) => rest = more,
                None => return false,
            }
        }
    }
    rest.is_empty()
}
