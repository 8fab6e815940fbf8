//! The options without a value.
ghost use Rattle.std.specs.Prelude.{◌≡◌};
ghost use Rattle.command_line.specs.Read.{switch_named};

/// An option without a value.
#[derive(Clone, Copy, Debug, PartialEq, Eq)]
pub(crate) enum Switch {
    /// One thread searches.
    Alone,
    /// The history is to be told too.
    History,
}

impl Switch {
    /// The option of this name.
    pub(crate) fn named(name: &str) -> Option<Switch>
        ensures { result ≡ switch_named name.now }
    {
        if name == "--alone" {
            Some(Switch::Alone)
        } else if name == "--history" {
            Some(Switch::History)
        } else {
            None
        }
    }
}
