// The calls that a script can make.
ghost use Rattle.std.specs.Prelude.{◌≡◌, ◌+◌, ◌*◌, ◌≤◌};
ghost use Rattle.replay.specs.Opcode.{Decodes, arguments, has_data};

#[derive(Clone, Copy, Debug, PartialEq, Eq)]
pub enum Opcode {
    End,
    Play,
    Undo,
    Read,
    Lend,
    Count,
    Poke,
}

// A number that stands for no call.
#[derive(Clone, Copy, Debug, PartialEq, Eq)]
pub struct UnknownOpcode(pub u32);

impl TryFrom<u32> for Opcode {
    type Error = UnknownOpcode;

    ghost try_from_gives = { Decodes };

    fn try_from(number: u32) -> Result<Opcode, UnknownOpcode> {
        match number {
            0 => Ok(Opcode::End),
            1 => Ok(Opcode::Play),
            2 => Ok(Opcode::Undo),
            3 => Ok(Opcode::Read),
            4 => Ok(Opcode::Lend),
            5 => Ok(Opcode::Count),
            6 => Ok(Opcode::Poke),
            _ => Err(UnknownOpcode(number)),
        }
    }
}

impl Opcode {
    // How many bytes the opcode and its arguments take, before any byte data.
    pub fn before_data(self) -> usize
        ensures { (result ≡ 4 * (1 + arguments self)) × (result ≤ 28) }
    {
        match self {
            Opcode::End => 4,
            Opcode::Play => 28,
            Opcode::Undo => 4,
            Opcode::Read => 8,
            Opcode::Lend => 20,
            Opcode::Count => 8,
            Opcode::Poke => 12,
        }
    }

    // Does byte data stand behind the arguments?
    pub fn has_data(self) -> bool
        ensures { result ≡ has_data self }
    {
        matches!(self, Opcode::Play | Opcode::Read)
    }
}
