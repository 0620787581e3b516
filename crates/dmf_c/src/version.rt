//! Which library this is.
ghost use Rattle.std.specs.Prelude.{◌≡◌};

/// The version, as a number: 10,000 for each major version, 100 for each minor one, and 1 for each patch.
#[unsafe(no_mangle)]
pub extern "C" fn dmf_version() -> u32
    ensures { result ≡ 200 }
{
    200
}

/// The number of the interface, which is also in the name of the library's file.
#[unsafe(no_mangle)]
pub extern "C" fn dmf_abi() -> u32
    ensures { result ≡ 0 }
{
    0
}
