// What is typed: a program's entries, and how many nodes each of its types has. Typing reads these and no more, and writes in lent bytes.
use program::entries::Entries;

#[derive(Clone, Copy)]
pub struct Subject<'a> {
    pub entries: Entries<'a>,
    pub nodes: &'a [u16],
}
