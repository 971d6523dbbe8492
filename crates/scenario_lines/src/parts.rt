//! The parts of a line.
ghost use Rattle.std.specs.Prelude.{◌≡◌, ◌<◌, ◌≤◌, ◌∷◌, ◌↔◌, [], ℕ, List, false, length, IfSome, IsTrue};
ghost use Rattle.std.specs.Prelude.{MatchOption};
ghost use Rattle.scenario_lines.specs.Lines.{IsPartOf, begins_with, behind, parts_of};
ghost use Rattle.scenario_lines.specs.Reader.{AreTwo, IsOne};

/// Where a byte of a line stands: between parts, in a part, in a quoted text, or behind a backslash there.
#[derive(Clone, Copy, PartialEq, Eq, Debug)]
pub enum Place {
    Between,
    Within,
    Quoted,
    Escaped,
}

/// Where the byte behind a byte of a part stands.
fn behind(place: Place, byte: u8) -> Place
    ensures { result ≡ behind place byte }
{
    match (place, byte) {
        (Place::Quoted, b'"') => Place::Within,
        (Place::Quoted, b'\\') => Place::Escaped,
        (Place::Quoted | Place::Escaped, _) => Place::Quoted,
        (_, b'"') => Place::Quoted,
        (_, _) => Place::Within,
    }
}

/// What stands behind the spaces at the front of a line.
fn skip_spaces(line: &[u8]) -> &[u8]
    ensures same { parts_of result.now ≡ parts_of line.now }
    ensures starts { begins_with 32 result.now ≡ false }
    ensures shorter { length result.now ≤ length line.now }
{
    let mut rest = line;
    while let Some((first, others)) = rest.split_first() {
        if *first != b' ' {
            break;
        }
        rest = others;
    }
    rest
}

/// How many bytes the part has that the line begins with.
fn part_len(line: &[u8]) -> usize
    requires { begins_with 32 line.now ≡ false }
    ensures within { result ≤ length line.now }
    ensures part { IsPartOf line.now result }
{
    let mut place = Place::Within;
    let mut len = 0;
    while let Some(byte) = line.get(len) {
        if place == Place::Within && *byte == b' ' {
            break;
        }
        place = behind(place, *byte);
        len += 1;
    }
    len
}

/// The first part of a line, and what stands behind it.
pub fn next_part(line: &[u8]) -> Option<(&[u8], &[u8])>
    ensures parts { MatchOption result (parts_of line.now ≡ []) (λ p. parts_of line.now
        ≡ p.0.now ∷ parts_of p.1.now) }
    ensures shorter { IfSome result (λ p. length p.1.now < length line.now) }
{
    let rest = skip_spaces(line);
    if rest.is_empty() {
        return None;
    }
    Some(rest.split_at(part_len(rest)))
}

/// Whether the line has no part.
pub fn has_none(line: &[u8]) -> bool
    ensures { IsTrue result ↔ (parts_of line.now ≡ []) }
{
    next_part(line).is_none()
}

/// The part that is the line's only one.
pub fn one_part(line: &[u8]) -> Option<&[u8]>
    ensures { MatchOption result ((p : List ℕ) → IsOne line.now p → ⊥) (λ p. IsOne line.now p.now) }
{
    let (part, rest) = next_part(line)?;
    has_none(rest).then_some(part)
}

/// The two parts of a line that has two.
pub fn two_parts(line: &[u8]) -> Option<(&[u8], &[u8])>
    ensures { MatchOption result ((p q : List ℕ) → AreTwo line.now p q → ⊥)
        (λ p. AreTwo line.now p.0.now p.1.now) }
{
    let (first, rest) = next_part(line)?;
    let second = one_part(rest)?;
    Some((first, second))
}
