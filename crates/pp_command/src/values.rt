ghost use Rattle.std.specs.Prelude.{◌≡◌, Option, option_map};
ghost use Rattle.clap.specs.Words.{Text};
ghost use Rattle.pp_command.specs.CommandLine.{value_in};

use clap::ArgMatches;

/// What gives options their values.
pub trait Values {
    // the value of an option, if it has one
    ghost value: { Self → Text → Option Text };

    /// The value of an option, if it has one.
    fn value_of<'s>(&'s self, id: &str) -> Option<&'s str>
        ensures { option_map (λ s. s.now) result ≡ value self.now id.now };
}

impl<'a> Values for ArgMatches<'a> {
    ghost value = { value_in };

    fn value_of<'s>(&'s self, id: &str) -> Option<&'s str> {
        self.get_str(id)
    }
}
