// Why a device failed, and what is wrong with a bad line, told on standard error.

use crate::why::BadLine;
use std::io;

/// Tells why a device failed, where it did: `hammer: ` and the device's name, and what the system says.
/// Where this cannot be told, the status and the last line stand without it.
pub(crate) fn tell_reason(rt: &HostRuntime, device: &str, error: Option<io::Error>) {
    let Some(error) = error else {
        return;
    };
    let Ok(text) = format!(in rt.alloc(); "{error}") else {
        return;
    };
    let words = without_number(text.as_str());
    let _ = eprintln!(rt; "hammer: {device}: {words}");
}

/// Tells what is wrong with a line that was bad, where one was: `hammer: line `, its number, and the reason.
pub(crate) fn tell_bad_line(rt: &HostRuntime, line: Option<BadLine>) {
    let Some(BadLine { number, why }) = line else {
        return;
    };
    let words = why.text();
    let _ = eprintln!(rt; "hammer: line {number} {words}");
}

// What the system says, without the number that std puts behind it.
fn without_number(text: &str) -> &str {
    match text.split_once(" (os error ") {
        Some((words, _)) => words,
        None => text,
    }
}

#[cfg(test)]
mod tests {
    use super::*;

    #[test]
    fn tells_what_the_system_says(rt: HostRuntime) {
        for (text, want) in [
            (
                "No such file or directory (os error 2)",
                "No such file or directory",
            ),
            ("another run has the volume", "another run has the volume"),
            ("", ""),
        ] {
            assert_eq!(rt; without_number(text), want);
        }
    }
}
