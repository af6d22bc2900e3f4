//! A report without what may differ from run to run.

use std::alloc::{AllocError, Global};

/// The line without its moment, if it is the last line of a report.
fn steady_line<'a>(line: &'a str) -> (&'a str, &'a str) {
    let last = line
        .strip_prefix("end ")
        .and_then(|rest| rest.split_once(' '));
    match last {
        Some((_, events)) => ("end ", events),
        None => ("", line),
    }
}

/// The report, of whose last line the moment is left out. Bytes that are no text are left out too.
pub(crate) fn steady(alloc: Global, report: &[u8]) -> Result<String, AllocError> {
    let mut text = String::new(alloc);
    for line in report.split(|byte| *byte == b'\n') {
        if let Ok(line) = str::from_utf8(line) {
            if !line.is_empty() {
                let (front, rest) = steady_line(line);
                text.push_str(front)?;
                text.push_str(rest)?;
                text.push('\n')?;
            }
        }
    }
    Ok(text)
}
