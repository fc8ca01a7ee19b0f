// Random typed queries, each with the table that is due; vocabularies for them; and damage to a text.
#![tactic(auto)]

pub mod damage;
pub mod grow;
pub mod productions;
pub mod text;
pub mod vocabulary;
