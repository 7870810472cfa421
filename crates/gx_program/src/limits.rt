//! What the system limits a process to.

use std::fs;

/// Where Linux tells the limits of a process, a line each.
const LIMITS: &str = "/proc/self/limits";

/// The number behind these words in that file's text; `None` where it names none, as of what is not limited.
fn limit_in(text: &str, words: &str) -> Option<u64> {
    let (_, behind) = text.split_once(words)?;
    behind.split_whitespace().next()?.parse().ok()
}

/// The limit that these words name in `/proc/self/limits`; `None` where there is none, or where that can't be told.
fn limit_of(rt: &HostRuntime, words: &str) -> Option<u64> {
    limit_in(fs::read_to_string(rt, LIMITS).ok()?.as_str(), words)
}

/// How many descriptors may be open (`ulimit -n`); `None` where that is not limited, or can't be told.
pub fn most_descriptors(rt: &HostRuntime) -> Option<u64> {
    limit_of(rt, "Max open files")
}

/// How many bytes a file may have that this program writes (`ulimit -f`); `None` where that is not limited, or can't be told. The
/// system ends a program that writes more.
pub fn longest_file(rt: &HostRuntime) -> Option<u64> {
    limit_of(rt, "Max file size")
}
