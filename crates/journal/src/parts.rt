// What a journal in form says (document 01, section 5), read from its bytes: the held value, the conversions' fields, and the newest
// conversion. Values and fields are parts of the caller's slice, not copies.
ghost use Rattle.journal.specs.Places.{Stands};

use crate::places::{ENTRY_BYTES, FUNCTION_AT, Places, STEPS_AT};
use program::fields::FIELD_HEAD;

// A journal in form, and where its fields stand.
#[derive(Clone, Copy)]
pub struct Standing<'a> {
    pub journal: &'a [u8],
    pub places: Places,
    pub ghost in_form: { Stands places journal.now },
}

// A conversion that stands: its function, its steps, and the bytes of its ancilla values.
#[derive(Clone, Copy)]
pub struct Conversion<'a> {
    pub function: u16,
    pub steps: u32,
    pub ancillae: &'a [u8],
}

impl<'a> Standing<'a> {
    ghost use Rattle.std.specs.Prelude.{◌≡◌, ◌<◌};
    ghost use Rattle.rules.specs.Val.{encode};
    ghost use Rattle.calls.specs.Values.{encode_all};
    ghost use Rattle.calls.specs.Journal.{entry_fields};
    ghost use Rattle.journal.specs.Places.{journal_in, newest_of};

    // The bytes of the held value.
    #[tactic(auto, using(crate::proofs::Stands::in_order))]
    pub fn held_value(&self) -> &'a [u8]
        ensures { result.now ≡ encode (journal_in self.now.journal.now).held }
    {
        let end = self.places.held;
        &self.journal[FIELD_HEAD..end]
    }

    // The fields of all conversions, oldest first.
    #[tactic(auto, using(crate::proofs::Stands::in_order))]
    pub fn standing_fields(&self) -> &'a [u8]
        ensures { result.now ≡ entry_fields (journal_in self.now.journal.now).entries }
    {
        let from = self.places.held;
        let end = self.places.end;
        &self.journal[from..end]
    }

    // The newest conversion, where one stands.
    #[tactic(auto, using(crate::proofs::Stands::in_order))]
    pub fn newest(&self) -> Conversion<'a>
        requires { 0 < self.now.places.count }
        ensures function { result.function ≡ (newest_of (journal_in self.now.journal.now).entries).newest.function }
        ensures steps { result.steps ≡ (newest_of (journal_in self.now.journal.now).entries).newest.steps }
        ensures ancillae { result.ancillae.now ≡ encode_all (newest_of (journal_in self.now.journal.now).entries).newest.ancillae }
    {
        let at = self.places.newest;
        let from = at + ENTRY_BYTES;
        let end = self.places.end;
        Conversion {
            function: octets::read16(self.journal, at + FUNCTION_AT),
            steps: octets::read32(self.journal, at + STEPS_AT),
            ancillae: &self.journal[from..end],
        }
    }
}
