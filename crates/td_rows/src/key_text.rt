//! A key as it is written, read and written.
ghost use Rattle.std.specs.Prelude.{◌≡◌, ◌++◌, option_map, IfOk, OnOk, OnErr};
ghost use Rattle.std.specs.String.{string_bytes};
ghost use Rattle.td_rows.specs.declared.key.Key.{Key};
ghost use Rattle.td_rows.specs.KeyText.{key_text, key_at};

use crate::key::Key;
use std::alloc::{AllocError, Global};
use td_text::{cut_at, is_arch, is_name};

/// The source and the architecture of `source/arch`.
#[tactic(auto, unfolding(crate::specs::KeyText::key_at))]
pub fn read_key(text: &str) -> Option<(&str, &str)>
    ensures { option_map (λ p. record { source = p.0.now; arch = p.1.now }) result
        ≡ key_at text.now }
{
    let (source, arch) = cut_at(text, '/')?;
    if is_name(source) && is_arch(arch) {
        Some((source, arch))
    } else {
        None
    }
}

/// The key that a text is, in memory of its own.
pub fn read_own_key(alloc: Global, text: &str) -> Result<Option<Key>, AllocError>
    ensures { IfOk result (λ key. key ≡ key_at text.now) }
{
    let Some((source, arch)) = read_key(text) else {
        return Ok(None);
    };
    Ok(Some(Key::from_lines(alloc, source, arch)?))
}

/// Appends the key as `source/arch`; where memory runs out nothing.
pub fn put_key(out: &mut String, key: &Key) -> Result<(), AllocError>
    ensures ok { OnOk result (string_bytes out.new ≡ string_bytes out.old ++ key_text key.now) }
    ensures err { OnErr result (string_bytes out.new ≡ string_bytes out.old) }
{
    out.push_str(key.as_str())
}
