//! The three values of the logic of here-and-there as one type, with their four operations.
#![tactic(auto)]

ghost use Rattle.std.specs.Prelude.{◌≡◌};
ghost use Rattle.logic.specs.Value.{number, of_byte, smaller, larger, negation, implication};

// What a formula is worth under a reading: true in neither world, only there, or in both. Later is larger.
#[derive(Clone, Copy, Debug, PartialEq, Eq, PartialOrd, Ord)]
pub enum Value {
    Neither,
    There,
    Both,
}

// The value that a byte of a reading stands for. Any byte but 0 and 1 stands for 2.
impl From<u8> for Value {
    ghost from_gives = { λ byte value. value ≡ of_byte byte };

    fn from(byte: u8) -> Value {
        match byte {
            0 => Value::NEITHER,
            1 => Value::THERE,
            _ => Value::BOTH,
        }
    }
}

// The byte of a value: 0, 1 or 2.
impl From<Value> for u8 {
    ghost from_gives = { λ value byte. byte ≡ number value };

    fn from(value: Value) -> u8 {
        value as u8
    }
}

impl Value {
    // The constants 0, 1 and 2.
    pub const NEITHER: Value = Value::Neither;

    pub const THERE: Value = Value::There;

    pub const BOTH: Value = Value::Both;

    // The smaller of two values.
    pub fn and(self, other: Value) -> Value
        ensures { result ≡ smaller self other }
    {
        self.min(other)
    }

    // The larger of two values.
    pub fn or(self, other: Value) -> Value
        ensures { result ≡ larger self other }
    {
        self.max(other)
    }

    // 2 on 0, and else 0.
    pub fn not(self) -> Value
        ensures { result ≡ negation self }
    {
        match self {
            Value::Neither => Value::BOTH,
            Value::There | Value::Both => Value::NEITHER,
        }
    }

    // 2 where the left value is at most the right one, and else the right one.
    pub fn implies(self, other: Value) -> Value
        ensures { result ≡ implication self other }
    {
        if self <= other { Value::BOTH } else { other }
    }
}
