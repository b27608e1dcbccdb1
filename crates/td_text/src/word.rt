//! The names of packages and of architectures.
ghost use Rattle.std.specs.Prelude.{◌≡◌};
ghost use Rattle.std.specs.List.{list_all};
ghost use Rattle.td_text.specs.Words.{is_alphanumeric as is_alphanumeric_of};
ghost use Rattle.td_text.specs.Words.{is_name_byte as is_name_byte_of};
ghost use Rattle.td_text.specs.Words.{is_arch_byte as is_arch_byte_of, is_name as is_name_of};
ghost use Rattle.td_text.specs.Words.{is_arch as is_arch_of};

/// 1 at each byte that a package's name may have, and else 0: one look instead of up to five
/// comparisons, for the bytes that are looked at most.
const NAME_BYTES: [u8; 256] = [
    0, 0, 0, 0, 0, 0, 0, 0, 0, 0, 0, 0, 0, 0, 0, 0, 0, 0, 0, 0, 0, 0, 0, 0, 0, 0, 0, 0, 0, 0, 0, 0,
    0, 0, 0, 0, 0, 0, 0, 0, 0, 0, 0, 1, 0, 1, 1, 0, 1, 1, 1, 1, 1, 1, 1, 1, 1, 1, 0, 0, 0, 0, 0, 0,
    0, 0, 0, 0, 0, 0, 0, 0, 0, 0, 0, 0, 0, 0, 0, 0, 0, 0, 0, 0, 0, 0, 0, 0, 0, 0, 0, 0, 0, 0, 0, 0,
    0, 1, 1, 1, 1, 1, 1, 1, 1, 1, 1, 1, 1, 1, 1, 1, 1, 1, 1, 1, 1, 1, 1, 1, 1, 1, 1, 0, 0, 0, 0, 0,
    0, 0, 0, 0, 0, 0, 0, 0, 0, 0, 0, 0, 0, 0, 0, 0, 0, 0, 0, 0, 0, 0, 0, 0, 0, 0, 0, 0, 0, 0, 0, 0,
    0, 0, 0, 0, 0, 0, 0, 0, 0, 0, 0, 0, 0, 0, 0, 0, 0, 0, 0, 0, 0, 0, 0, 0, 0, 0, 0, 0, 0, 0, 0, 0,
    0, 0, 0, 0, 0, 0, 0, 0, 0, 0, 0, 0, 0, 0, 0, 0, 0, 0, 0, 0, 0, 0, 0, 0, 0, 0, 0, 0, 0, 0, 0, 0,
    0, 0, 0, 0, 0, 0, 0, 0, 0, 0, 0, 0, 0, 0, 0, 0, 0, 0, 0, 0, 0, 0, 0, 0, 0, 0, 0, 0, 0, 0, 0, 0,
];

fn is_alphanumeric(byte: u8) -> bool
    ensures { result ≡ is_alphanumeric_of byte }
{
    matches!(byte, b'a'..=b'z' | b'0'..=b'9')
}

pub fn is_name_byte(byte: u8) -> bool
    ensures { result ≡ is_name_byte_of byte }
{
    NAME_BYTES[byte as usize] != 0
}

pub fn is_arch_byte(byte: u8) -> bool
    ensures { result ≡ is_arch_byte_of byte }
{
    is_alphanumeric(byte) || byte == b'-'
}

fn are_name_bytes(bytes: &[u8]) -> bool
    ensures { result ≡ list_all is_name_byte_of bytes.now }
{
    bytes.iter().all(|b| is_name_byte(*b))
}

/// Whether each byte is one that an architecture's name may have.
pub fn are_arch_bytes(bytes: &[u8]) -> bool
    ensures { result ≡ list_all is_arch_byte_of bytes.now }
{
    bytes.iter().all(|b| is_arch_byte(*b))
}

/// Whether the text is a name of a package.
pub fn is_name(text: &str) -> bool
    ensures { result ≡ is_name_of text.now }
{
    let bytes = text.as_bytes();
    bytes.len() > 1 && is_alphanumeric(bytes[0]) && are_name_bytes(bytes)
}

/// Whether the text can name an architecture.
pub fn is_arch(text: &str) -> bool
    ensures { result ≡ is_arch_of text.now }
{
    let bytes = text.as_bytes();
    !bytes.is_empty() && are_arch_bytes(bytes)
}
