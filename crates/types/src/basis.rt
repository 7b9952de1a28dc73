// What codes stand on, which a value of this type has been proved to be. Which codes it knows, specs/Basis says.

ghost use Rattle.types.specs.Codes.{Sources};
ghost use Rattle.types.specs.Once.{Sources-prop};

// The program's bytes, the offsets of its type entries in them, and lent bytes with the figures of these and `top` product nodes.
#[derive(Clone, Copy)]
pub struct Basis<'a> {
    pub program: &'a [u8],
    pub types: &'a [u16],
    pub ws: &'a [u8],
    pub top: u32,
    pub ghost sources: { Sources program.now types.now ws.now top } by { Sources-prop program.now types.now ws.now top },
}
