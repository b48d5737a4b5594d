//! A law of `clap`'s parses, for commands whose arguments take one value at each use, or are flags.
ghost use Rattle.command_line.specs.Parses.{FaultlessParsesPass};

/// A parse that has no fault names a subcommand, each of its values passes the rule of its argument,
/// and each argument that was left out has its default.
pub fn faultless_parses_pass()
    ensures { FaultlessParsesPass }
{}
