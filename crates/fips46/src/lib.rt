// The two halves of a block between the iterations. What FIPS 46-3 defines is in specs/.
#![tactic(auto)]

#[derive(Clone, Copy)]
pub struct Halves {
    pub left: u32,
    pub right: u32,
}
