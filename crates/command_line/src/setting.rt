//! The options that take a value.
ghost use Rattle.std.specs.Prelude.{◌≡◌};
ghost use Rattle.command_line.specs.CommandLine.{default_of};
ghost use Rattle.command_line.specs.Read.{setting_named, option_named};

/// An option that takes a number.
#[derive(Clone, Copy, Debug, PartialEq, Eq)]
pub(crate) enum Setting {
    /// How many threads search.
    Workers,
    /// How many inputs are sampled.
    Samples,
    /// How many marks a run may pass.
    Marks,
    /// How many rows an elimination may keep.
    Rows,
    /// What the words of later inputs are drawn from.
    Seed,
}

/// An option that takes a value.
#[derive(Clone, Copy, Debug, PartialEq, Eq)]
pub(crate) enum Valued {
    /// A number.
    Number(Setting),
    /// The text of a condition on the inputs.
    Pre,
}

impl Setting {
    /// The option of this name.
    fn named(name: &str) -> Option<Setting>
        ensures { result ≡ setting_named name.now }
    {
        if name == "--workers" {
            Some(Setting::Workers)
        } else if name == "--samples" {
            Some(Setting::Samples)
        } else if name == "--marks" {
            Some(Setting::Marks)
        } else if name == "--rows" {
            Some(Setting::Rows)
        } else if name == "--seed" {
            Some(Setting::Seed)
        } else {
            None
        }
    }

    /// The number that stands where the option is not given.
    pub(crate) fn default_number(self) -> u64
        ensures { result ≡ default_of self }
    {
        match self {
            Setting::Workers => 4,
            Setting::Samples => 100,
            Setting::Marks => 64,
            Setting::Rows => 4000,
            Setting::Seed => 0,
        }
    }
}

impl Valued {
    /// The option of this name.
    pub(crate) fn named(name: &str) -> Option<Valued>
        ensures { result ≡ option_named name.now }
    {
        if name == "--pre" {
            return Some(Valued::Pre);
        }
        match Setting::named(name) {
            Some(setting) => Some(Valued::Number(setting)),
            None => None,
        }
    }
}
