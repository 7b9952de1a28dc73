// The kinds of nodes: those of the value bytes, with their numbers.
ghost use Rattle.std.specs.Prelude.{◌≡◌};
ghost use Rattle.valuegraph.specs.Nodes.{kind_number, kind_named};

#[derive(Clone, Copy, PartialEq, Eq, Debug)]
pub enum Kind {
    Unit,
    Inl,
    Inr,
    Pair,
    Roll,
}

const UNIT: u8 = Kind::Unit as u8;

const INL: u8 = Kind::Inl as u8;

const INR: u8 = Kind::Inr as u8;

const PAIR: u8 = Kind::Pair as u8;

impl Kind {
    // The kind that a byte names. Of the bytes of values only roll's is none of these.
    pub fn named(byte: u8) -> Kind
        ensures { result ≡ kind_named byte }
    {
        match byte {
            UNIT => Kind::Unit,
            INL => Kind::Inl,
            INR => Kind::Inr,
            PAIR => Kind::Pair,
            _ => Kind::Roll,
        }
    }
}

impl From<Kind> for u8 {
    ghost from_gives = { λ kind byte. byte ≡ kind_number kind };

    fn from(kind: Kind) -> u8 {
        kind as u8
    }
}
