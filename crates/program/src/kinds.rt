// The kinds of type and term entries (document 01, section 1), as enums and by their numbers (specs/Kinds). A number that is no kind's is
// refused when the fields are read, so that of a field that was read the kind is one of these (views::type_kind, views::term_kind).
ghost use Rattle.std.specs.Prelude.{◌≡◌, get_or};
ghost use Rattle.calls.specs.Fields.{type_length, term_length, call_length};
ghost use Rattle.program.specs.KindNumbers.{type_kind_number, term_kind_number, IsTypeKind, IsTermKind};
ghost use Rattle.program.specs.Lists.{type_types, term_types, term_functions, term_terms};

#[derive(Clone, Copy, PartialEq, Eq, Debug)]
pub enum TypeKind {
    Unit,
    Product,
    Sum,
    Recursive,
    Variable,
}

#[derive(Clone, Copy, PartialEq, Eq, Debug)]
pub enum TermKind {
    Variable,
    Unit,
    Inl,
    Inr,
    Pair,
    Let,
    LetPair,
    Case,
    Call,
    Roll,
    Unroll,
}

// A number that is no kind's.
#[derive(Clone, Copy, PartialEq, Eq, Debug)]
pub struct UnknownKind(pub u8);

impl TryFrom<u8> for TypeKind {
    type Error = UnknownKind;

    ghost try_from_gives = { IsTypeKind };

    fn try_from(number: u8) -> Result<Self, UnknownKind> {
        match number {
            UNIT_TYPE => Ok(TypeKind::Unit),
            PRODUCT => Ok(TypeKind::Product),
            SUM => Ok(TypeKind::Sum),
            RECURSIVE => Ok(TypeKind::Recursive),
            TYPE_VARIABLE => Ok(TypeKind::Variable),
            _ => Err(UnknownKind(number)),
        }
    }
}

impl TryFrom<u8> for TermKind {
    type Error = UnknownKind;

    ghost try_from_gives = { IsTermKind };

    fn try_from(number: u8) -> Result<Self, UnknownKind> {
        match number {
            VARIABLE => Ok(TermKind::Variable),
            UNIT => Ok(TermKind::Unit),
            INL => Ok(TermKind::Inl),
            INR => Ok(TermKind::Inr),
            PAIR => Ok(TermKind::Pair),
            LET => Ok(TermKind::Let),
            LET_PAIR => Ok(TermKind::LetPair),
            CASE => Ok(TermKind::Case),
            CALL => Ok(TermKind::Call),
            ROLL => Ok(TermKind::Roll),
            UNROLL => Ok(TermKind::Unroll),
            _ => Err(UnknownKind(number)),
        }
    }
}

// What the field of each kind holds; specs/Lists and calls/specs/Fields have the tables.

impl TypeKind {
    // How many types it names.
    #[tactic(auto, unfolding(crate::specs::Lists::type_types))]
    pub(crate) fn types(self) -> usize
        ensures { result ≡ get_or type_types (type_kind_number self) 0 }
    {
        match self {
            TypeKind::Unit | TypeKind::Variable => 0,
            TypeKind::Recursive => 1,
            TypeKind::Product | TypeKind::Sum => 2,
        }
    }

    // Is `n` the length of its body?
    #[tactic(auto, unfolding(calls::specs::Fields::type_length, calls::specs::Fields::type_lengths))]
    pub(crate) fn fits(self, n: u16) -> bool
        ensures { result ≡ type_length (type_kind_number self) n }
    {
        match self {
            TypeKind::Unit => n == 1,
            TypeKind::Variable => n == 2,
            TypeKind::Recursive => n == 3,
            TypeKind::Product | TypeKind::Sum => n == 5,
        }
    }
}

impl TermKind {
    // How many types, functions and terms it names, in the order of the bytes; a call names its ancilla terms besides.

    #[tactic(auto, unfolding(crate::specs::Lists::term_types))]
    pub(crate) fn types(self) -> usize
        ensures { result ≡ get_or term_types (term_kind_number self) 0 }
    {
        match self {
            TermKind::Inl | TermKind::Inr | TermKind::Roll | TermKind::Unroll => 1,
            _ => 0,
        }
    }

    #[tactic(auto, unfolding(crate::specs::Lists::term_functions))]
    pub(crate) fn functions(self) -> usize
        ensures { result ≡ get_or term_functions (term_kind_number self) 0 }
    {
        match self {
            TermKind::Call => 1,
            _ => 0,
        }
    }

    #[tactic(auto, unfolding(crate::specs::Lists::term_terms))]
    pub(crate) fn terms(self) -> usize
        ensures { result ≡ get_or term_terms (term_kind_number self) 0 }
    {
        match self {
            TermKind::Variable | TermKind::Unit => 0,
            TermKind::Inl | TermKind::Inr | TermKind::Call | TermKind::Roll | TermKind::Unroll => 1,
            TermKind::Pair | TermKind::Let | TermKind::LetPair => 2,
            TermKind::Case => 3,
        }
    }

    // Is `n` the length of its body?
    #[tactic(auto, unfolding(calls::specs::Fields::term_length, calls::specs::Fields::term_lengths))]
    pub(crate) fn fits(self, n: u16) -> bool
        ensures { result ≡ term_length (term_kind_number self) n }
    {
        match self {
            TermKind::Unit => n == 1,
            TermKind::Variable => n == 2,
            TermKind::Inl | TermKind::Inr | TermKind::Pair | TermKind::Let => n == 5,
            TermKind::LetPair | TermKind::Roll | TermKind::Unroll => n == 5,
            TermKind::Case => n == 7,
            TermKind::Call => call_length(n),
        }
    }
}

// Of a call: its function and one term at least, two bytes each, after the kind.
#[tactic(auto, unfolding(calls::specs::Fields::call_length))]
fn call_length(n: u16) -> bool
    ensures { result ≡ call_length n }
{
    5 <= n && n % 2 == 1
}

// Types.

pub const UNIT_TYPE: u8 = 0;

pub const PRODUCT: u8 = 1;

pub const SUM: u8 = 2;

pub const RECURSIVE: u8 = 3;

pub const TYPE_VARIABLE: u8 = 4;

// How many there are.
pub const TYPE_KINDS: usize = 5;

// Terms.

pub const VARIABLE: u8 = 0;

pub const UNIT: u8 = 1;

pub const INL: u8 = 2;

pub const INR: u8 = 3;

pub const PAIR: u8 = 4;

pub const LET: u8 = 5;

pub const LET_PAIR: u8 = 6;

pub const CASE: u8 = 7;

pub const CALL: u8 = 8;

pub const ROLL: u8 = 9;

pub const UNROLL: u8 = 10;

pub const TERM_KINDS: usize = 11;
