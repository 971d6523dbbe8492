//! The lines of a text.
ghost use Rattle.std.specs.Prelude.{◌≡◌, ◌≢◌, ◌<◌, ◌∷◌, [], length};
ghost use Rattle.scenario_lines.specs.Lines.{lines_of, without_last_return};

use crate::cut::cut;

#[tactic(auto, using(crate::proofs::Lining::stripped, crate::proofs::Lining::unstripped))]
/// The line without a CR at its end.
fn strip_return(line: &[u8]) -> &[u8]
    ensures { result.now ≡ without_last_return line.now }
{
    let Some((last, front)) = line.split_last() else {
        return line;
    };
    if *last == b'\r' {
        return front;
    }
    line
}

#[tactic(auto, using(crate::proofs::Lining::first_lines, crate::proofs::Lining::last_lines))]
/// The first line of a text, and what stands behind its LF.
pub fn split_line(text: &[u8]) -> (&[u8], &[u8])
    requires { text.now ≢ [] }
    ensures lines { lines_of text.now ≡ result.0.now ∷ lines_of result.1.now }
    ensures shorter { length result.1.now < length text.now }
{
    let (line, rest) = cut(text, b'\n');
    match rest.split_first() {
        Some((_, rest)) => (strip_return(line), rest),
        None => (line, rest),
    }
}
