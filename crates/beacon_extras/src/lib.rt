// What each place gets of an interval with a header: document 02, No. 1. If kind 1 does not pass the header test with its extras, it gets none
// and kind 2 shares alone.
#![tactic(auto)]

ghost use Rattle.std.specs.Prelude.{◌≡◌, true};
ghost use Rattle.spec_model.specs.Tables.{held_of};
ghost use Rattle.spec_rules.specs.Share.{extras_pass};
ghost use Rattle.spec_rules.specs.WellFormed.{Tidy};
ghost use Rattle.table_queue.specs.Queues.{Used, Queued};
ghost use Rattle.beacon_share.specs.Shares.{shares_among, shares_of};

use beacon_share::Shares;
use spec_model::Table;
use table_queue::Queue;

// Whether kind 1 passes the header test with the extras that it has where everyone takes part.
fn extras_pass(t: Table, used: usize, s: Shares) -> bool
    requires { Tidy t × (Used used t × (s ≡ shares_among true t)) }
    ensures { result ≡ extras_pass t.frame (held_of t) }
{
    let mut sums = [0u64; header_test::PARTS_ROOM];
    for (i, e) in t.entries[..used].iter().enumerate() {
        header_test::add_need(&mut sums, *e, s.grants[i].extra);
    }
    header_test::passes(t.frame, &sums)
}

// For a tidy table's queue, and its shares where everyone takes part, these are its slots of steps B and C.
pub fn shares_after(t: Table, q: Queue, all: Shares) -> Shares
    requires { Tidy t × (Queued t q × (all ≡ shares_among true t)) }
    ensures { result ≡ shares_of t }
{
    if extras_pass(t, q.used, all) {
        return all;
    }
    beacon_share::shares_of(t.frame, q, false)
}
