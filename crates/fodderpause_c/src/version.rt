ghost use Rattle.std.specs.Prelude.{◌≡◌};
ghost use Rattle.fodderpause_c.specs.declared.version.TheConstants.{VERSION};

/// The version of the calls, 0.1.0: the first number a million times, the second a thousand times, and the third.
pub const VERSION: u32 = 1_000;

/// Tells the version.
#[unsafe(no_mangle)]
pub extern "C" fn fodderpause_version() -> u32
    ensures { result ≡ VERSION }
{
    VERSION
}
