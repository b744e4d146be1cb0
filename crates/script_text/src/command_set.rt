ghost use Rattle.std.specs.Prelude.{◌≡◌};
ghost use Rattle.script_text.specs.Commands.{has_command, version_commands};
ghost use Rattle.script_text.specs.Names.{name_text};

use crate::name::Name;

/// The commands of a seat that not every text has: whether a text has them.
#[derive(Clone, Copy, Debug, PartialEq, Eq)]
pub struct CommandSet {
    pub cas: bool,
    pub collect: bool,
}

impl CommandSet {
    /// Those of a script or a history of this version.
    pub fn of_version(version: u8) -> CommandSet
        ensures { result ≡ version_commands version }
    {
        CommandSet {
            cas: version == 2,
            collect: true,
        }
    }

    /// Whether a text that has these has the command of this name.
    pub fn has(self, name: Name) -> bool
        ensures { result ≡ has_command self (name_text name) }
    {
        match name {
            Name::Cas => self.cas,
            Name::Collect => self.collect,
            _ => true,
        }
    }
}
