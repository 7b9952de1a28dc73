// The kinds of values, by a value's first byte (document 01, section 1).
ghost use Rattle.std.specs.Prelude.{◌≡◌, ℕ, ◌+◌, ◌≤◌};
ghost use Rattle.valuebytes.specs.Ends.{pending};
ghost use Rattle.valuebytes.specs.ValueKinds.{value_kind_number, IsValueKind};

use program::kinds::UnknownKind;

#[derive(Clone, Copy, PartialEq, Eq, Debug)]
pub enum ValueKind {
    Unit,
    Inl,
    Inr,
    Pair,
    Roll,
}

impl TryFrom<u8> for ValueKind {
    type Error = UnknownKind;

    ghost try_from_gives = { IsValueKind };

    fn try_from(byte: u8) -> Result<Self, UnknownKind> {
        match byte {
            0 => Ok(ValueKind::Unit),
            1 => Ok(ValueKind::Inl),
            2 => Ok(ValueKind::Inr),
            3 => Ok(ValueKind::Pair),
            4 => Ok(ValueKind::Roll),
            _ => Err(UnknownKind(byte)),
        }
    }
}

impl ValueKind {
    // How many values follow the first byte, as the parts of its value.
    #[tactic(auto, unfolding(crate::specs::Ends::pending))]
    pub(crate) fn parts(self) -> usize
        ensures few { result ≤ 2 }
        ensures parts { (n : ℕ) → n + result ≡ pending (value_kind_number self) n }
    {
        match self {
            ValueKind::Unit => 0,
            ValueKind::Inl | ValueKind::Inr | ValueKind::Roll => 1,
            ValueKind::Pair => 2,
        }
    }
}
