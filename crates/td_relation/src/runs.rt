//! The runs of an operator's and of a version's bytes at the front of a text.
ghost use Rattle.std.specs.Prelude.{◌≡◌};
ghost use Rattle.std.specs.List.{prefix_len};
ghost use Rattle.td_text.specs.Runs.{behind, run};
ghost use Rattle.td_relation.specs.RelationGrammar.{is_operator_byte as is_operator_byte_of};
ghost use Rattle.td_relation.specs.RelationGrammar.{is_version_byte as is_version_byte_of};

/// 1 at each byte that a version may have, and else 0: one look instead of up to eleven
/// comparisons.
const VERSION_BYTES: [u8; 256] = [
    0, 0, 0, 0, 0, 0, 0, 0, 0, 0, 0, 0, 0, 0, 0, 0, 0, 0, 0, 0, 0, 0, 0, 0, 0, 0, 0, 0, 0, 0, 0, 0,
    0, 0, 0, 0, 0, 0, 0, 0, 0, 0, 0, 1, 0, 1, 1, 0, 1, 1, 1, 1, 1, 1, 1, 1, 1, 1, 1, 0, 0, 0, 0, 0,
    0, 1, 1, 1, 1, 1, 1, 1, 1, 1, 1, 1, 1, 1, 1, 1, 1, 1, 1, 1, 1, 1, 1, 1, 1, 1, 1, 0, 0, 0, 0, 0,
    0, 1, 1, 1, 1, 1, 1, 1, 1, 1, 1, 1, 1, 1, 1, 1, 1, 1, 1, 1, 1, 1, 1, 1, 1, 1, 1, 0, 0, 0, 1, 0,
    0, 0, 0, 0, 0, 0, 0, 0, 0, 0, 0, 0, 0, 0, 0, 0, 0, 0, 0, 0, 0, 0, 0, 0, 0, 0, 0, 0, 0, 0, 0, 0,
    0, 0, 0, 0, 0, 0, 0, 0, 0, 0, 0, 0, 0, 0, 0, 0, 0, 0, 0, 0, 0, 0, 0, 0, 0, 0, 0, 0, 0, 0, 0, 0,
    0, 0, 0, 0, 0, 0, 0, 0, 0, 0, 0, 0, 0, 0, 0, 0, 0, 0, 0, 0, 0, 0, 0, 0, 0, 0, 0, 0, 0, 0, 0, 0,
    0, 0, 0, 0, 0, 0, 0, 0, 0, 0, 0, 0, 0, 0, 0, 0, 0, 0, 0, 0, 0, 0, 0, 0, 0, 0, 0, 0, 0, 0, 0, 0,
];

fn is_operator_byte(byte: u8) -> bool
    ensures { result ≡ is_operator_byte_of byte }
{
    matches!(byte, b'<' | b'=' | b'>')
}

fn operator_len(bytes: &[u8]) -> usize
    ensures { result ≡ prefix_len is_operator_byte_of bytes.now }
{
    bytes.iter().take_while(|b| is_operator_byte(**b)).count()
}

/// The longest run of bytes of operators at the front, and what follows it.
pub fn operator_run(text: &str) -> (&str, &str)
    ensures run { result.0.now ≡ run is_operator_byte_of text.now }
    ensures behind { result.1.now ≡ behind is_operator_byte_of text.now }
{
    text.split_at(operator_len(text.as_bytes()))
}

fn is_version_byte(byte: u8) -> bool
    ensures { result ≡ is_version_byte_of byte }
{
    VERSION_BYTES[byte as usize] != 0
}

fn version_len(bytes: &[u8]) -> usize
    ensures { result ≡ prefix_len is_version_byte_of bytes.now }
{
    bytes.iter().take_while(|b| is_version_byte(**b)).count()
}

/// The longest run of bytes of versions at the front, and what follows it.
pub fn version_run(text: &str) -> (&str, &str)
    ensures run { result.0.now ≡ run is_version_byte_of text.now }
    ensures behind { result.1.now ≡ behind is_version_byte_of text.now }
{
    text.split_at(version_len(text.as_bytes()))
}
