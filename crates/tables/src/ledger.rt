// Who is open, and the numbers that come next.
use crate::entries::{OfJob, Owned};

// An open job: its number, its class, and its turn number once it has turned.
#[derive(Clone, Copy)]
pub struct JobRecord {
    pub number: u32,
    pub class: u8,
    pub turn: Option<u32>,
}

impl OfJob for JobRecord {
    ghost owner = { λ b. b.number };

    #[tactic(auto, unfolding(crate::specs::Lists::is))]
    fn is_of(&self, job: u32) -> bool {
        job == self.owner()
    }
}

impl Owned for JobRecord {
    fn owner(&self) -> u32 {
        self.number
    }
}

// Places for the records of open jobs, in an array of a fixed number by a rule of the project, and the next number of a job,
// of a lock and of a turn.
#[derive(Clone, Copy)]
pub struct Ledger {
    pub records: [Option<JobRecord>; 32],
    pub opening: u32,
    pub granting: u32,
    pub turning: u32,
}
