//! Fields.

/// A field: its name as written, and its value without the spaces and tabs at both ends. Lines that
/// continue the value stand in it after newlines, each with its own first spaces and tabs.
#[derive(Clone, Copy)]
pub struct Field<'a> {
    pub name: &'a str,
    pub value: &'a str,
}
