// What the test programs stand on: tables and buffers that take any index, the lines of their input that fill them, what is due as a
// reply, and the tally of what was compared.
#![tactic(auto)]

pub mod chains;
pub mod due;
pub mod line;
pub mod shared;
pub mod sums;
pub mod table;
pub mod tally;
