// The bytes of a study, by class.
ghost use Rattle.std.specs.Prelude.{◌≡◌, ◌==◌};
ghost use Rattle.std.specs.List.{position};
ghost use Rattle.study.specs.Bytes.{is_white, is_plain, is_comment, is_digit, all};

// White space between words.
pub(crate) fn is_white(byte: u8) -> bool
    ensures { result ≡ is_white byte }
{
    matches!(byte, b' ' | b'\t' | b'\r')
}

// What may stand outside a comment.
pub(crate) fn is_plain(byte: u8) -> bool
    ensures { result ≡ is_plain byte }
{
    matches!(byte, b'\t' | b'\r' | b' '..=b'~')
}

// What may stand in a comment.
pub(crate) fn is_comment(byte: u8) -> bool
    ensures { result ≡ is_comment byte }
{
    !byte.is_ascii() || is_plain(byte)
}

pub(crate) fn all_plain(bytes: &[u8]) -> bool
    ensures { result ≡ all is_plain bytes.now }
{
    bytes.iter().all(|&byte| is_plain(byte))
}

pub(crate) fn all_comment(bytes: &[u8]) -> bool
    ensures { result ≡ all is_comment bytes.now }
{
    bytes.iter().all(|&byte| is_comment(byte))
}

pub(crate) fn all_digits(bytes: &[u8]) -> bool
    ensures { result ≡ all is_digit bytes.now }
{
    bytes.iter().all(|byte| byte.is_ascii_digit())
}

// The place of the first byte that is the wanted one.
pub(crate) fn find(wanted: u8, bytes: &[u8]) -> Option<usize>
    ensures { result ≡ position (λ b. b == wanted) bytes.now }
{
    bytes.iter().position(|&byte| byte == wanted)
}
