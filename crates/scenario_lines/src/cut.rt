//! Bytes cut where a byte first stands.
ghost use Rattle.std.specs.Prelude.{◌≡◌};
ghost use Rattle.scenario_lines.specs.Cut.{IsCut};

/// What stands before the first place of the byte, and the rest: empty, or that byte first.
pub fn cut(bytes: &[u8], byte: u8) -> (&[u8], &[u8])
    ensures { IsCut byte bytes.now result.0.now result.1.now }
{
    match bytes.iter().position(|b| *b == byte) {
        Some(place) => bytes.split_at(place),
        None => (bytes, &[]),
    }
}
