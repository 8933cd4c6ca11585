//! The forms in which `ucptrie_forms` writes a table.

/// The forms in which a table is written.
#[derive(Clone, Copy, Debug, PartialEq, Eq)]
pub enum Form<'a> {
    /// ICU's binary form, which `ucptrie_openFromBinary` opens.
    Icu,
    /// TOML, as ICU's tools write it.
    Toml,
    /// JSON, as the Rust crate has it.
    Json,
    /// Source in C. Each of its names starts with this one.
    C(&'a str),
    /// Source in C for `bekstaudi.h`: the bytes of ICU's binary form. Each of its names starts with
    /// this one.
    Bks(&'a str),
    /// Source in Rust: a module of this name.
    Rust(&'a str),
    /// The rows of `ucptab`, a line for each range of equal values, after comments that state the
    /// null value and the error value.
    Rows,
}
