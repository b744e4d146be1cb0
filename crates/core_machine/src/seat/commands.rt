ghost use Rattle.std.specs.Prelude.{◌≡◌};
ghost use Rattle.core_machine.specs.seat.Commands.{operands_of};

use heap_model::Command;

/// What a command names; 0 for what it doesn't name.
#[derive(Clone, Copy)]
pub struct Operands {
    /// The register that the answer goes to.
    pub target: u8,
    /// The register with the object that is read or written.
    pub object: u8,
    /// The register whose value is taken.
    pub source: u8,
    /// The register whose value is expected in the field.
    pub expected: u8,
    /// The field that is read or written.
    pub field: u32,
    /// The fields of the record that is made.
    pub fields: u16,
    /// The cells of the array that is made.
    pub cells: u16,
}

impl Operands {
    /// What a command names that names nothing.
    const NONE: Operands = Operands {
        target: 0,
        object: 0,
        source: 0,
        expected: 0,
        field: 0,
        fields: 0,
        cells: 0,
    };

    /// The operands of this command.
    pub fn of(command: &Command) -> Operands
        ensures { result ≡ operands_of command.now }
    {
        let none = Operands::NONE;
        match *command {
            Command::New { d, fields } => Operands {
                target: d,
                fields,
                ..none
            },
            Command::Array { d, cells } => Operands {
                target: d,
                cells,
                ..none
            },
            Command::Num { d, .. } | Command::Nil { d } => Operands { target: d, ..none },
            Command::Get { d, r, i } => Operands {
                target: d,
                object: r,
                field: i,
                ..none
            },
            Command::Set { r, i, v } => Operands {
                object: r,
                source: v,
                field: i,
                ..none
            },
            Command::Cas { r, i, a, v } => Operands {
                object: r,
                source: v,
                expected: a,
                field: i,
                ..none
            },
            Command::Copy { d, r } => Operands {
                target: d,
                source: r,
                ..none
            },
            Command::Len { r } => Operands { object: r, ..none },
            Command::Same { .. } | Command::Poll | Command::Collect | Command::Leave => none,
        }
    }
}
