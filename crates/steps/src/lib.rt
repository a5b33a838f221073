// The answer record of document 01; in specs/ its steps as definitions that compute, in proofs/ their theorems.
#![tactic(auto)]

#[repr(C)]
#[derive(Drop)]
pub struct Answer {
    pub number: u32,
    pub place: usize,
    pub total: i64,
    pub adjustments: u32,
    pub primes: u32,
    pub augmentations: u32,
    pub block_rows: u64,
    pub block_columns: u64,
}
