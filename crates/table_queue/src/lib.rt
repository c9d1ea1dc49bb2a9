// A table's queue: the figures that an interval is shared by, document 01, "One beacon", steps A to C, read from the places in one loop.
#![tactic(auto)]

ghost use Rattle.std.specs.Prelude.{◌≡◌, true};
ghost use Rattle.spec_model.specs.Entries.{is_held};
ghost use Rattle.spec_rules.specs.WellFormed.{Tidy};
ghost use Rattle.table_queue.specs.Claims.{claim_of};
ghost use Rattle.table_queue.specs.Queues.{Queued};

use spec_model::{Entry, Slots, Table};

// What steps B and C go by at a place: its rank, what it is owed, what it may still get before that, and its jobs.
#[derive(Clone, Copy)]
pub struct Claim {
    pub rank: u64,
    pub owed: Slots,
    pub limit: Slots,
    pub jobs: u32,
}

// A table read once: the load of step A, and what each place claims. From place `used` on all are free. The load is in slots: a sum of slots,
// as wide as needed, is a bare number of 64 bits. An array and a count, since nothing is allocated.
#[derive(Clone, Copy)]
pub struct Queue {
    pub used: usize,
    pub load: u64,
    pub claims: [Claim; 32],
}

// That of a free place.
const NO_CLAIM: Claim = Claim {
    rank: 0,
    owed: Slots(0),
    limit: Slots(0),
    jobs: 0,
};

fn claim_of(e: &Entry) -> Claim
    requires { is_held e.now ≡ true }
    ensures { result ≡ claim_of e.now }
{
    Claim {
        rank: table_entry::rank(e.left, e.kind, e.name),
        owed: table_entry::owed_of(*e),
        limit: table_entry::limit_of(*e),
        jobs: table_entry::job_count(*e),
    }
}

// One loop finds all figures: each function that takes a table copies it first.
pub fn queue_of(t: Table) -> Queue
    requires { Tidy t }
    ensures { Queued t result }
{
    let mut used: usize = 0;
    let mut load: u64 = 0;
    let mut claims = [NO_CLAIM; spec_model::PLACES];
    for (i, e) in t.entries.iter().enumerate() {
        if !e.name.is_nobody() {
            claims[i] = claim_of(e);
            load += table_entry::load_of(*e);
            used = i + 1;
        }
    }
    Queue { used, load, claims }
}
