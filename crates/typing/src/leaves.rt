// Where entries stand, and a type that needs no looking.
ghost use Rattle.std.specs.Prelude.{◌≡◌, ◌<◌, length, get_or};
ghost use Rattle.typing.specs.Ready.{Bare};

use crate::outcomes::Found;
use types::codes::Code;
use varsets::Uses;

// Where the field of an entry starts.
pub fn offset(entries: &[u16], i: u16) -> usize
    requires { i < length entries.now }
    ensures { result ≡ get_or entries.now i 0 }
{
    usize::from(entries[usize::from(i)])
}

// Unit uses no variable.
pub fn unit() -> Found
    ensures { Bare result }
{
    Found {
        code: Code::Unit,
        uses: Uses::none(),
    }
}
