// The types that typing gives a term, as codes that are compared as trees without writing them out (document 01, section 3).
#![tactic(auto)]

pub mod codes; // codes.rt: what a code is
pub mod basis; // basis.rt: what codes stand on
pub mod nodes; // nodes.rt: product nodes in lent bytes
pub mod figures; // figures.rt: what is kept of each type entry, behind them
pub mod parts; // parts.rt: the outermost node of a type, read off the entry or product that its code names
pub mod shapes; // shapes.rt: the outermost node of a type
pub mod unfolding; // unfolding.rt: what a recursive entry unfolds to
pub mod compare; // compare.rt: types compared
pub mod counting; // counting.rt: the nodes of a type
pub mod hints; // hints.rt: guesses at the codes of products
pub mod numbering; // numbering.rt: the figures of all type entries, made before typing
pub mod aliases; // aliases.rt: which entries the parts of an unfolding are equal to
pub mod products; // products.rt: products of two types
