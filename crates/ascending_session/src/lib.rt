// The session of the ascending profile by value. What it and its storage stand for, and what a call on it promises, is said in specs/.
#![tactic(auto)]

use buffer::Guide;

#[derive(Clone, Copy)]
pub struct Ascending {
    pub guide: Guide,
    // the lowest place that is neither set nor written
    pub lowest: usize,
    // registrations accepted, and the numbers of their lists
    pub added: u32,
    pub used: usize,
    // how many list numbers it takes in all
    pub room: usize,
    // plain flushes done
    pub flushes: u32,
    pub closed: bool,
    // fixed by final
    pub registrations: u32,
    pub places: u32,
}

// Its storage: that of every session, without waiting storage and pool.
#[derive(Drop)]
pub struct Storage<'a> {
    pub spans: &'a mut [u32],
    pub order: &'a mut [u32],
    pub tally: &'a mut [u32],
    pub rows: &'a mut [u32],
    pub marks: &'a mut [u16],
    pub locations: &'a mut [u64],
}
