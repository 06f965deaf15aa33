// What a command may ask of one bay.
ghost use Rattle.std.specs.Prelude.{◌≡◌, ◌<◌, Some, OnSome, IfErr};
ghost use Rattle.std.specs.Result.{result_ok};
ghost use Rattle.machine.specs.Operations.{operation, served};

use command::Command;

// Its number is the one by which a command names it.
#[derive(Clone, Copy, PartialEq, Eq, Debug)]
pub enum Operation {
    Read = 1,
    Put = 2,
    Take = 3,
}

// A number that names no operation.
#[derive(Clone, Copy, PartialEq, Eq, Debug)]
pub struct UnknownOperation(pub u32);

impl From<Operation> for u32 {
    ghost from_gives = { λ asked number. operation number ≡ Some asked };

    fn from(operation: Operation) -> u32 {
        operation as u32
    }
}

impl TryFrom<u32> for Operation {
    type Error = UnknownOperation;

    ghost try_from_gives = { λ number result. (result_ok result ≡ operation number) × IfErr result (λ unknown. unknown.0 ≡ number) };

    fn try_from(number: u32) -> Result<Operation, UnknownOperation> {
        match number {
            1 => Ok(Operation::Read),
            2 => Ok(Operation::Put),
            3 => Ok(Operation::Take),
            _ => Err(UnknownOperation(number)),
        }
    }
}

impl Operation {
    // The operation that a command asks of a machine with so many bays, if the machine knows it and has the bay.
    pub(crate) fn served(command: Command, bays: u32) -> Option<Operation>
        ensures operation { result ≡ served bays command }
        ensures bay { OnSome result (command.bay < bays) }
    {
        if command.bay < bays {
            Operation::try_from(command.operation).ok()
        } else {
            None
        }
    }
}
