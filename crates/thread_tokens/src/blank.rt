// What separates tokens.
ghost use Rattle.std.specs.Prelude.{◌≡◌, ◌+◌, ◌<◌, ◌≤◌, ◌==◌, not, length};
ghost use Rattle.std.specs.List.{prefix_len, list_any};
ghost use Rattle.thread_tokens.specs.Form.{first_passes};
ghost use Rattle.thread_tokens.specs.Piece.{is_space, blank_length};

/// Whether a byte separates tokens: a space, a tab, a carriage return or a newline.
fn is_space(byte: u8) -> bool
    ensures same { result ≡ is_space byte }
{
    matches!(byte, b' ' | b'\t' | b'\r' | b'\n')
}

/// Whether a text begins with such a byte.
fn begins_with_space(text: &[u8]) -> bool
    ensures same { result ≡ first_passes is_space text.now }
{
    text.first().is_some_and(|byte| is_space(*byte))
}

/// How many bytes stand before the first newline, or all where there is none.
fn line_length(text: &[u8]) -> usize
    ensures same { result ≡ prefix_len (λ byte. not (byte == 10)) text.now }
{
    text.iter().take_while(|byte| **byte != b'\n').count()
}

/// How many bytes at the head of a text separate tokens: one, or a comment up to the next newline.
#[tactic(auto, unfolding(crate::specs::Piece::blank_length))]
pub fn blank_length(text: &[u8]) -> usize
    ensures same { result ≡ blank_length text.now }
{
    if begins_with_space(text) {
        return 1;
    }
    if text.starts_with(b"//") {
        return line_length(text);
    }
    0
}
