//! The two parts of an input.

ghost use Rattle.std.specs.Prelude.{◌≡◌, ◌<◌, ◌≤◌, ◌∷◌, [], length, take, drop};
ghost use Rattle.hiphop_main.specs.Lines.{lines_of};
ghost use Rattle.hiphop_main.specs.Split as spec;

/// The module text and the scenario of an input, parted at its first line that is `%% scenario`.
pub fn split(input: &[u8]) -> (&[u8], &[u8])
    ensures modules { result.0.now ≡ spec.module_text input.now }
    ensures scenario { result.1.now ≡ spec.scenario_text input.now }
    ensures front { length result.0.now ≤ length input.now }
    ensures within { length result.1.now ≤ length input.now }
{
    let mut rest = input;
    let mut start = 0;
    while !rest.is_empty() {
        let (line, after) = rest.split_at(line_len(rest));
        if is_mark(line) {
            return (&input[..start], after);
        }
        start += line.len();
        rest = after;
    }
    (input, rest)
}

/// How many bytes the first line has, its LF among them.
pub fn line_len(bytes: &[u8]) -> usize
    requires { 0 < length bytes.now }
    ensures some { 0 < result }
    ensures within { result ≤ length bytes.now }
    ensures line { lines_of bytes.now ≡ take result bytes.now ∷ lines_of (drop result bytes.now) }
{
    for (i, byte) in bytes.iter().enumerate() {
        if *byte == b'\n' {
            return i + 1;
        }
    }
    bytes.len()
}

fn is_mark(line: &[u8]) -> bool
    ensures { result ≡ spec.is_mark line.now }
{
    line == b"%% scenario\n".as_slice()
        || line == b"%% scenario\r\n".as_slice()
        || line == b"%% scenario".as_slice()
}
