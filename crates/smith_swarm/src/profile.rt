//! The limits of the profile `fuzz`.

ghost use Rattle.std.specs.Prelude.{◌≡◌};
ghost use Rattle.smith_format.specs.Consistency.{IsDefault};
ghost use Rattle.smith_format.specs.declared.config.Config.{Config};
ghost use Rattle.smith_swarm.specs.Profile.{fuzzed};

use smith_format::Config;

/// The limits of the profile `fuzz`, with which a fuzzer's input says more in fewer bytes: names are short, lists are
/// long, a component has some sections before it is finished, and it may have exports. The others are the defaults.
pub fn fuzz_limits() -> Config
    ensures { (default : Config) → IsDefault default → result ≡ fuzzed default }
{
    Config {
        max_exports: 10,
        finish_after: 8,
        max_name_length: 8,
        loop_bits: 2,
        ..Config::default()
    }
}
