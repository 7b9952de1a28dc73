// The tags of fields: what kind of entry a field is (document 01, section 1). Another byte is no tag.
ghost use Rattle.std.specs.Prelude.{◌≡◌};
ghost use Rattle.program.specs.Tags.{tag_number, IsTag};

#[derive(Clone, Copy, PartialEq, Eq, Debug)]
pub enum Tag {
    Type = 1,
    Term = 2,
    Function = 3,
}

const TYPE: u8 = Tag::Type as u8;

const TERM: u8 = Tag::Term as u8;

const FUNCTION: u8 = Tag::Function as u8;

// A byte that is no tag.
#[derive(Clone, Copy, PartialEq, Eq, Debug)]
pub struct UnknownTag(pub u8);

impl TryFrom<u8> for Tag {
    type Error = UnknownTag;

    ghost try_from_gives = { IsTag };

    fn try_from(byte: u8) -> Result<Self, UnknownTag> {
        match byte {
            TYPE => Ok(Tag::Type),
            TERM => Ok(Tag::Term),
            FUNCTION => Ok(Tag::Function),
            _ => Err(UnknownTag(byte)),
        }
    }
}

impl From<Tag> for u8 {
    ghost from_gives = { λ tag byte. byte ≡ tag_number tag };

    fn from(tag: Tag) -> u8 {
        tag as u8
    }
}
