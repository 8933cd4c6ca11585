//! The version of the library.
ghost use Rattle.std.specs.Prelude.{◌≡◌};

/// Returns the version of the library, as `BKS_VERSION_NUMBER` of `c/bekstaudi.h` is that of the
/// header: 1.2.3 is 10203.
///
/// ICU: `u_getVersion`.
#[unsafe(no_mangle)]
pub extern "C" fn bks_version() -> u32
    ensures { result ≡ 200 }
{
    200
}
