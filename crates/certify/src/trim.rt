// What is left of a line.
ghost use Rattle.std.specs.Prelude.{◌≡◌};
ghost use Rattle.certify.specs.Trim as spec;

/// What is left of the line without one CR at its end, and then without blanks at both ends.
pub(crate) fn trimmed(text: &[u8]) -> &[u8]
    ensures { result.now ≡ spec.trimmed text.now }
{
    behind_blanks(before_blanks(without_cr(text)))
}

// Whether the byte is a space or a tab.
fn is_blank(byte: u8) -> bool
    ensures { result ≡ spec.is_blank byte }
{
    byte == b' ' || byte == b'\t'
}

fn without_cr(text: &[u8]) -> &[u8]
    ensures { result.now ≡ spec.without_cr text.now }
{
    let len = text.len();
    if len > 0 && text[len - 1] == b'\r' {
        return &text[..len - 1];
    }
    text
}

fn before_blanks(text: &[u8]) -> &[u8]
    ensures { result.now ≡ spec.before_blanks text.now }
{
    let mut end = text.len();
    while end > 0 && is_blank(text[end - 1]) {
        end -= 1;
    }
    &text[..end]
}

fn behind_blanks(text: &[u8]) -> &[u8]
    ensures { result.now ≡ spec.behind_blanks text.now }
{
    for (count, byte) in text.iter().enumerate() {
        if !is_blank(*byte) {
            return &text[count..];
        }
    }
    &text[text.len()..]
}
