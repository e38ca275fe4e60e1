ghost use Rattle.std.specs.Prelude.{◌≡◌};
ghost use Rattle.codes.specs.Values.{NumberNames, number_of};
ghost use Rattle.codes.specs.Laws.{known};

// What is known of a cell.
#[derive(Clone, Copy, PartialEq, Eq, Debug)]
pub enum Value {
    Off,
    On,
    Unknown,
}

// The number of a value: 0 off, 1 on, 2 unknown.
impl From<Value> for u32 {
    ghost from_gives = { λ value number. number ≡ number_of value };

    fn from(value: Value) -> u32 {
        match value {
            Value::Off => 0,
            Value::On => 1,
            Value::Unknown => 2,
        }
    }
}

impl From<Value> for usize {
    ghost from_gives = { λ value number. number ≡ number_of value };

    fn from(value: Value) -> usize {
        // no From takes a u32 to a usize
        u32::from(value) as usize
    }
}

// A number that no value has.
#[derive(Clone, Copy, PartialEq, Eq, Debug)]
pub struct UnknownNumber(pub usize);

impl TryFrom<usize> for Value {
    type Error = UnknownNumber;

    ghost try_from_gives = { NumberNames };

    fn try_from(number: usize) -> Result<Value, UnknownNumber> {
        match number {
            0 => Ok(Value::Off),
            1 => Ok(Value::On),
            2 => Ok(Value::Unknown),
            _ => Err(UnknownNumber(number)),
        }
    }
}

// The value of a cell of which it is known whether it is on.
impl From<bool> for Value {
    ghost from_gives = { λ on value. value ≡ known on };

    fn from(on: bool) -> Value {
        if on { Value::On } else { Value::Off }
    }
}
