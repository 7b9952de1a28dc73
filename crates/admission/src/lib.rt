// What a call gives a run, admitted or refused (document 01, section 4, row Call): 9 no such function; then all of 10, value bytes
// malformed, over the limit or wrong in number; then all of 11, a value not of its type. For programs that are loaded.
#![tactic(auto)]

ghost use Rattle.std.specs.Prelude.{◌≡◌, true, map, length};
ghost use Rattle.calls.specs.Entries.{type_of, function_at};
ghost use Rattle.calls.specs.Values.{has_tys};
ghost use Rattle.program.specs.Signatures.{SignatureIs};
ghost use Rattle.valuebytes.specs.Typing.{entries_of};
ghost use Rattle.valuebytes.specs.Ends.{values_in};
ghost use Rattle.admission.specs.Admitting.{Callable, Admittable, right_in, AsMany, side_number, all_typed, AdmitMeans};

use answers::Refusal;
use program::entries::Entries;
use program::views;
use rules::MAX_PARAMETERS;
use valuebytes::table::TypeTable;
use valuebytes::{scan, typed};

// A function that may be called: the program's type entries, where its field is, and its row of the table of signatures.
#[derive(Clone, Copy)]
struct Callee<'a> {
    table: TypeTable<'a>,
    at: usize,
    row: [u16; MAX_PARAMETERS],
    ghost callable: { Callable table.program.now table.types.now at },
    ghost signed: { SignatureIs (function_at table.program.now at) row },
}

impl<'a> Callee<'a> {
    // How many ancillae it has.
    fn ancillae(&self) -> usize
        ensures { result ≡ length (function_at self.now.table.program.now self.now.at).ancillae }
    {
        views::function_parameters(self.table.program, self.at) - 1
    }

    // All of 10: ancillae and value are values within the limits, and there are as many ancillae as the function has.
    fn values_right(&self, ancillae: &[u8], value: &[u8]) -> bool
        ensures { result ≡ right_in ancillae.now value.now (function_at self.now.table.program.now self.now.at) }
    {
        let Some(n) = scan::count_values(ancillae) else {
            return false;
        };
        scan::one_value(value) && n == self.ancillae()
    }

    // Is each ancilla of its parameter's type? They are taken one after another, each from where the one before it ends.
    fn ancillae_typed(&self, bytes: &[u8]) -> bool
        requires { AsMany self.now.table.program.now self.now.at bytes.now }
        ensures { result ≡ has_tys (values_in bytes.now) (map (type_of (entries_of self.now.table.program.now self.now.table.types.now)) (function_at self.now.table.program.now self.now.at).ancillae) }
    {
        let n = self.ancillae();
        let mut next = 0;
        for entry in &self.row[..n] {
            let Some(end) = typed::has_type_at(&self.table, *entry, bytes, next) else {
                return false;
            };
            next = end;
        }
        true
    }

    // The type that the value is held to: a forward run's the dynamic parameter's, which is the last of the row, a backward run's the result's.
    fn side(&self, back: bool) -> u16
        ensures { result ≡ side_number back (function_at self.now.table.program.now self.now.at) }
    {
        if back {
            views::function_result(self.table.program, self.at)
        } else {
            self.row[self.ancillae()]
        }
    }

    // All of 11.
    fn values_typed(&self, ancillae: &[u8], value: &[u8], back: bool) -> bool
        requires { right_in ancillae.now value.now (function_at self.now.table.program.now self.now.at) ≡ true }
        ensures { result ≡ all_typed (entries_of self.now.table.program.now self.now.table.types.now) (function_at self.now.table.program.now self.now.at) back ancillae.now value.now }
    {
        self.ancillae_typed(ancillae) && typed::has_type(&self.table, self.side(back), value)
    }
}

// The call's function, ancillae and value, for a forward run or one back: they are given to a run, or refused with 9, 10 or 11.
pub fn admit(
    entries: &Entries,
    function: u16,
    ancillae: &[u8],
    value: &[u8],
    back: bool,
) -> Result<(), Refusal>
    requires { Admittable entries.now.program.now entries.now.types.now entries.now.functions.now entries.now.table.now }
    ensures { AdmitMeans result entries.now.program.now entries.now.types.now entries.now.functions.now function ancillae.now value.now back }
{
    let g = usize::from(function);
    if entries.functions.len() <= g {
        return Err(Refusal::Function);
    }
    let callee = Callee {
        table: TypeTable {
            program: entries.program,
            types: entries.types,
        },
        at: usize::from(entries.functions[g]),
        row: entries.table[g],
    };
    if !callee.values_right(ancillae, value) {
        return Err(Refusal::Values);
    }
    if !callee.values_typed(ancillae, value, back) {
        return Err(Refusal::ValueType);
    }
    Ok(())
}
