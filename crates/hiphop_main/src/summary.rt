//! The one line that sums a play up.

ghost use Rattle.std.specs.Prelude.{◌≡◌, ◌≤◌, cond, length, count_by, IfOk};
ghost use Rattle.std.specs.String.{string_bytes};
ghost use Rattle.hiphop_main.specs.Lines.{lines_of};
ghost use Rattle.hiphop_main.specs.Summary as spec;

use crate::split::line_len;
use gen_words::order::Order;
use hh_base::memory::NoMemory;
use std::alloc::Global;

/// How many lines a text has, and how many of them tell of a refused reaction.
#[derive(Clone, Copy)]
struct LineCounts {
    lines: usize,
    refused: usize,
}

/// Whether a line tells of a refused reaction.
fn is_refusal(line: &[u8]) -> bool
    ensures { result ≡ spec.is_refusal line.now }
{
    match line.first() {
        Some(first) => *first == b'-',
        None => false,
    }
}

fn one_if(yes: bool) -> usize
    ensures { result ≡ cond yes 1 0 }
{
    if yes { 1 } else { 0 }
}

fn count_lines(text: &[u8]) -> LineCounts
    ensures lines { result.lines ≡ length (lines_of text.now) }
    ensures refused { result.refused ≡ count_by spec.is_refusal (lines_of text.now) }
{
    let mut rest = text;
    let mut lines = 0;
    let mut refused = 0;
    while !rest.is_empty() {
        let (line, after) = rest.split_at(line_len(rest));
        lines += 1;
        refused += one_if(is_refusal(line));
        rest = after;
    }
    LineCounts { lines, refused }
}

fn summary_line(
    alloc: Global,
    order: Order,
    lines: usize,
    refused: usize,
    bytes: usize,
) -> Result<String, NoMemory>
    ensures { IfOk result (λ t. string_bytes t ≡ spec.summary_line order.seed order.size lines refused bytes) }
{
    let seed = order.seed;
    let size = order.size;
    Ok(format!(in alloc;
        "gen seed={seed} size={size} lines={lines} refused={refused} bytes={bytes}\n"
    )?)
}

/// The line that sums up what was played, with its LF.
pub fn summary(alloc: Global, order: Order, text: &[u8]) -> Result<String, NoMemory>
    ensures { IfOk result (λ t. string_bytes t ≡ spec.summary order.seed order.size text.now) }
{
    let LineCounts { lines, refused } = count_lines(text);
    summary_line(alloc, order, lines, refused, text.len())
}
