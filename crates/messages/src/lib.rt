// A refusal in numbers and in words, and answers as text (document 01, section 4).
#![tactic(auto)]

// what each number means
pub mod meanings;
// answers as text
pub mod replies;

ghost use Rattle.std.specs.Prelude.{◌≡◌};
ghost use Rattle.answers.specs.Answers.{number_of, place_of};

use answers::Refusal;

pub fn number(r: Refusal) -> u64
    ensures { result ≡ number_of r }
{
    match r {
        Refusal::Workspace => 1,
        Refusal::Field(_) => 2,
        Refusal::Limit(_) => 3,
        Refusal::Reference(_) => 4,
        Refusal::NamedType(_) => 5,
        Refusal::Mismatch(_) => 6,
        Refusal::Scope(_) => 7,
        Refusal::Usage(_) => 8,
        Refusal::Function => 9,
        Refusal::Values => 10,
        Refusal::ValueType => 11,
        Refusal::Fuel(_) => 12,
        Refusal::Height(_) => 13,
        Refusal::Long(_) => 14,
        Refusal::FirstMatch(_) => 15,
        Refusal::NoInput(_) => 16,
        Refusal::Output => 17,
        Refusal::Journal => 18,
        Refusal::Standing => 19,
        Refusal::Full => 20,
    }
}

pub fn place(r: Refusal) -> u64
    ensures { result ≡ place_of r }
{
    match r {
        Refusal::Field(at)
        | Refusal::Limit(at)
        | Refusal::Reference(at)
        | Refusal::NamedType(at)
        | Refusal::Mismatch(at)
        | Refusal::Scope(at)
        | Refusal::Usage(at) => at as u64,
        Refusal::Fuel(k)
        | Refusal::Height(k)
        | Refusal::Long(k)
        | Refusal::FirstMatch(k)
        | Refusal::NoInput(k) => u64::from(k),
        _ => 0,
    }
}
