// Which bytes a token may have, and how many of them stand at the head of a text.
ghost use Rattle.std.specs.Prelude.{◌≡◌, ◌≤◌, ◌==◌, length};
ghost use Rattle.std.specs.List.{prefix_len};
ghost use Rattle.std.specs.Char.{is_ascii_digit};
ghost use Rattle.thread_tokens.specs.Form.{first_passes, begins_name, continues_name, is_printed};

/// Whether a name may begin with this byte.
fn begins_name(byte: u8) -> bool
    ensures same { result ≡ begins_name byte }
{
    byte.is_ascii_alphabetic() || byte == b'_'
}

/// Whether a name may go on with this byte.
fn continues_name(byte: u8) -> bool
    ensures same { result ≡ continues_name byte }
{
    begins_name(byte) || byte.is_ascii_digit()
}

/// Whether a string may hold this byte.
fn is_printed(byte: u8) -> bool
    ensures same { result ≡ is_printed byte }
{
    matches!(byte, b' '..=b'~') && byte != b'"'
}

/// How many bytes at the head of a text may go on with a name.
pub fn name_length(text: &[u8]) -> usize
    ensures same { result ≡ prefix_len continues_name text.now }
{
    text.iter()
        .take_while(|byte| continues_name(**byte))
        .count()
}

/// How many digits stand at the head of a text.
pub fn number_length(text: &[u8]) -> usize
    ensures same { result ≡ prefix_len is_ascii_digit text.now }
{
    text.iter().take_while(|byte| byte.is_ascii_digit()).count()
}

/// How many bytes at the head of a text may be in a string.
pub fn string_length(text: &[u8]) -> usize
    ensures same { result ≡ prefix_len is_printed text.now }
    ensures within { result ≤ length text.now }
{
    text.iter().take_while(|byte| is_printed(**byte)).count()
}

/// Whether a text begins as a name does.
pub fn begins_with_letter(text: &[u8]) -> bool
    ensures same { result ≡ first_passes begins_name text.now }
{
    text.first().is_some_and(|byte| begins_name(*byte))
}

/// Whether a text begins as a number does.
pub fn begins_with_digit(text: &[u8]) -> bool
    ensures same { result ≡ first_passes is_ascii_digit text.now }
{
    text.first().is_some_and(|byte| byte.is_ascii_digit())
}

/// Whether a text begins with a quote.
pub fn begins_with_quote(text: &[u8]) -> bool
    ensures same { result ≡ first_passes (λ byte. byte == 34) text.now }
{
    text.first().is_some_and(|byte| *byte == b'"')
}
