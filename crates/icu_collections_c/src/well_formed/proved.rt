//! The body for Rattle, by `std::simd`, which stable Rust lacks.
ghost use Rattle.std.specs.Prelude.{◌↔◌, IsTrue};
ghost use Rattle.std.specs.Str.{IsUtf8};

/// Returns true if the bytes are UTF-8. Tests 64 bytes at a time.
#[inline(always)]
pub(crate) fn is_utf8(bytes: &[u8]) -> bool
    ensures { IsTrue result ↔ IsUtf8 bytes.now }
{
    simdutf8::is_utf8(bytes)
}
