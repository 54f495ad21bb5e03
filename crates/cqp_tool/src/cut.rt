//! Inputs that have a program text and, behind a line that is exactly `%trace`, a trace's text.

ghost use Rattle.std.specs.Prelude.{◌≡◌, ◌<◌, ◌≤◌, ◌∷◌, length, option_map, take, drop, IfSome};
ghost use Rattle.cqp_trace.specs.Lines.{lines};
ghost use Rattle.cqp_tool.specs.Cut.{is_marker, text_part, trace_part};

/// What stands before the first line that is exactly `%trace`, and what stands behind it, where
/// there is one.
pub(crate) fn cut(input: &[u8]) -> (&[u8], Option<&[u8]>)
    ensures text { result.0.now ≡ text_part input.now }
    ensures trace { option_map (λ t. t.now) result.1 ≡ trace_part input.now }
    ensures within { IfSome result.1 (λ t. length t.now ≤ length input.now) }
{
    let mut at = 0;
    while at < input.len() {
        let end = at + line_len(&input[at..]);
        if is_marker(&input[at..end]) {
            return (&input[..at], Some(&input[end..]));
        }
        at = end;
    }
    (input, None)
}

// How long the first line is, with its line feed.
fn line_len(bytes: &[u8]) -> usize
    requires { 0 < length bytes.now }
    ensures some { 0 < result }
    ensures within { result ≤ length bytes.now }
    ensures line { lines bytes.now ≡ take result bytes.now ∷ lines (drop result bytes.now) }
{
    for (i, byte) in bytes.iter().enumerate() {
        if *byte == b'\n' {
            return i + 1;
        }
    }
    bytes.len()
}

// Whether the line is exactly `%trace`.
fn is_marker(line: &[u8]) -> bool
    ensures { result ≡ is_marker line.now }
{
    line == b"%trace\n".as_slice() || line == b"%trace".as_slice()
}
