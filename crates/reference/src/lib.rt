// The test program's own evaluator, written separately from the engine, straight from document 01 and, for the document node, the star
// of a path and `same`, document 02: pairs, images, answers, and the pages that are due; from document 02 the index of a tree and what is
// found by one, relations as bits, the reversed query, the rule of quick pages with the evaluations that they make, and what a party sees
// of a shared table; the random trees, owners, queries and sets that the engine is tried on; and what is refused instead of them.
#![tactic(auto)]

pub mod bearing;
pub mod bit_damage;
pub mod bit_tables;
pub mod closing;
pub mod damage;
pub mod effort;
pub mod evaluator;
pub mod index_damage;
pub mod indexing;
pub mod keeping;
pub mod listing;
pub mod owning;
pub mod query;
pub mod random;
pub mod reversing;
pub mod rule;
pub mod searching;
pub mod seeing;
pub mod shapes;
pub mod steer;
pub mod tagging;
pub mod tree;
