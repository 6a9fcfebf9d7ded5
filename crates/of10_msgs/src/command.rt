//! The commands of FLOW_MOD.
ghost use Rattle.std.specs.Prelude.{◌≡◌};
ghost use Rattle.of10_msgs.specs.Commands.{command_at, command_number};

/// What a FLOW_MOD wants (`ofp_flow_mod_command`, section 5.3.3), in the order of their numbers.
#[derive(Clone, Copy, PartialEq, Eq, Debug)]
pub enum Command {
    Add,
    Modify,
    ModifyStrict,
    Delete,
    DeleteStrict,
}

/// The commands, by their numbers.
const COMMANDS: [Command; 5] = [
    Command::Add,
    Command::Modify,
    Command::ModifyStrict,
    Command::Delete,
    Command::DeleteStrict,
];

impl Command {
    /// The command of a number on the wire; None above 4.
    pub fn from_number(number: u16) -> Option<Command>
        ensures { result ≡ command_at number }
    {
        COMMANDS.get(usize::from(number)).copied()
    }

    /// The number on the wire.
    pub fn number(self) -> u16
        ensures { result ≡ command_number self }
    {
        self as u16
    }
}
