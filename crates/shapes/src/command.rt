// The script commands that 01 lists.
ghost use Rattle.std.specs.Prelude.{◌≡◌};
ghost use Rattle.shapes.specs.Command.{header_of, tag_for, length_for, is_for, Lists};

use answers::Refusal;

// What a script command does: sets the PIN, sets the block mark, clears it.
#[derive(Clone, Copy, Debug, PartialEq, Eq)]
pub enum Command {
    SetPin,
    SetMark,
    ClearMark,
}

impl Command {
    pub const CLASS: u8 = 0x84;

    pub const SET_PIN: u8 = 0x24;

    pub const SET_MARK: u8 = 0x1e;

    pub const CLEAR_MARK: u8 = 0x18;

    pub const PIN_PARAMETER: u8 = 0x02;

    pub const PIN_TAG: u8 = 0x87;

    pub const MARK_TAG: u8 = 0x81;

    pub const PIN_LENGTH: usize = 8;

    pub const MARK_LENGTH: usize = 0;

    // Class, instruction and parameters.
    pub fn header(self) -> [u8; 4]
        ensures { result ≡ header_of self }
    {
        match self {
            Command::SetPin => [Command::CLASS, Command::SET_PIN, 0, Command::PIN_PARAMETER],
            Command::SetMark => [Command::CLASS, Command::SET_MARK, 0, 0],
            Command::ClearMark => [Command::CLASS, Command::CLEAR_MARK, 0, 0],
        }
    }

    // The tag of its data.
    pub fn tag(self) -> u8
        ensures { result ≡ tag_for self }
    {
        match self {
            Command::SetPin => Command::PIN_TAG,
            Command::SetMark => Command::MARK_TAG,
            Command::ClearMark => Command::MARK_TAG,
        }
    }

    // The length of its data.
    pub fn length(self) -> usize
        ensures { result ≡ length_for self }
    {
        match self {
            Command::SetPin => Command::PIN_LENGTH,
            Command::SetMark => Command::MARK_LENGTH,
            Command::ClearMark => Command::MARK_LENGTH,
        }
    }

    // Whether header, tag and length are its own.
    pub fn is_for(self, header: &[u8], tag: u8, length: usize) -> bool
        ensures { result ≡ is_for self header.now tag length }
    {
        octets::same(header, &self.header()) && tag == self.tag() && length == self.length()
    }

    // The listed command that header, tag and length are for.
    pub fn listed(header: &[u8], tag: u8, length: usize) -> Result<Command, Refusal>
        ensures { Lists result header.now tag length }
    {
        [Command::SetPin, Command::SetMark, Command::ClearMark]
            .iter()
            .find(|command| command.is_for(header, tag, length))
            .copied()
            .ok_or(Refusal::NotListed)
    }
}
