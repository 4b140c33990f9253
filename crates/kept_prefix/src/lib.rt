// A second prenex form of a table: the blocks that stand in front of it already stay, and what is below
// them is lifted. Definitions stand in specs/, the theorems about them in proofs/.
#![tactic(auto)]

// What becomes of the blocks in front of a table: they are lifted with the others, or kept.
#[derive(Clone, Copy)]
pub enum Prefix {
    Lifted,
    Kept,
}
