// What a recursive type entry unfolds to (section 3; T-ROLL and T-UNROLL).
ghost use Rattle.std.specs.Prelude.{◌≡◌, ◌≤◌, ◌<◌, length, get_or};
ghost use Rattle.calls.specs.Entries.{type_at};
ghost use Rattle.types.specs.Layout.{typing_bytes};
ghost use Rattle.types.specs.Codes.{Readable};
ghost use Rattle.types.specs.Unfolding.{body_of};

use crate::basis::Basis;
use crate::codes::Code;
use crate::figures::Figures;
use program::kinds::TypeKind;
use program::views;

// The unfolded type, if the entry is recursive. Its code is by numbers, so that unfoldings of equal entries have the same.
pub fn unfolded(program: &[u8], types: &[u16], ws: &[u8], i: u16) -> Option<Code>
    requires readable { Readable program.now types.now × (typing_bytes ≤ length ws.now) }
    requires i_in_bounds { i < length types.now }
    ensures { result ≡ body_of ws.now (type_at program.now (get_or types.now i 0)) i }
{
    let at = usize::from(types[usize::from(i)]);
    match views::type_kind(program, at) {
        TypeKind::Recursive => {
            let kept = Figures { ws };
            let body = kept.number_of(views::first(program, at));
            Some(Code::Under(body, kept.number_of(i)))
        }
        _ => None,
    }
}

impl Basis<'_> {
    // The same of what codes stand on.
    pub fn unfolded(&self, i: u16) -> Option<Code>
        requires { i < length self.now.types.now }
        ensures { result ≡ body_of self.now.ws.now (type_at self.now.program.now (get_or self.now.types.now i 0)) i }
    {
        unfolded(self.program, self.types, self.ws, i)
    }
}
