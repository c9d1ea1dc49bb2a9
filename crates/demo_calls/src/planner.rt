// A planner: a table that an opening gave, as the calls since then left it. That it is well formed is a fact of its type, so no clause asks
// for it. A call that is refused leaves the planner as it is.
ghost use Rattle.std.specs.Prelude.{◌≡◌, IfOk};
ghost use Rattle.std.specs.Result.{result_unwrap_or};
ghost use Rattle.spec_rules.specs.Calls.{offer_answer, offered, held_answer, withdrawn, beacon};
ghost use Rattle.spec_rules.specs.Reading.{enquired};
ghost use Rattle.spec_rules.specs.Settings.{open_answer, opened};
ghost use Rattle.spec_rules.specs.WellFormed.{WellFormed};
ghost use Rattle.spec_model.specs.Answers.{answered, offer_number};
ghost use Rattle.spec_model.specs.Entries.{free_entry};
ghost use Rattle.spec_model.specs.Numbers.{open_number, held_number, beacon_number};
ghost use Rattle.spec_model.specs.ByNumbers.{stream as named};

use spec_model::{
    BeaconRefusal, Entry, HeldRefusal, Name, OfferRefusal, OpenRefusal, Request, Setting, Table,
};
use std::marker::Model;

// Clauses see the table.
#[derive(Clone, Copy)]
pub struct Planner {
    table: Table,
}

impl Model for Planner {
    ghost use Rattle.spec_model.specs.declared.Table.{Table};
    ghost use Rattle.spec_rules.specs.WellFormed.{WellFormed};

    ghost Value = { Table };

    ghost view = { λ p. p.table };

    ghost invariant = { λ p. WellFormed p.table };

    ghost inverse = { λ t. record { table = t } };
}

impl Planner {
    // Over a table that calls left, whoever made them.
    pub fn of(table: Table) -> Planner
        requires { WellFormed table }
        ensures { result ≡ table }
    {
        Planner { table }
    }

    // The table, for any call.
    pub fn table(&self) -> Table
        ensures is { result ≡ self.now }
        ensures formed { WellFormed result }
    {
        let Planner { table } = self;
        *table
    }

    #[tactic(auto, using(law_ahead::proofs::Formed::opened_formed))]
    pub fn open(s: Setting) -> Result<Planner, OpenRefusal>
        ensures answer { answered open_number result ≡ open_answer s }
        ensures table { IfOk result (λ t. t ≡ opened s) }
    {
        let table = call_open::open(s)?;
        Ok(Planner { table })
    }

    #[tactic(auto, using(law_ahead::proofs::Formed::offered_formed))]
    pub fn offer(&mut self, q: Request) -> Result<(), OfferRefusal>
        ensures answer { answered offer_number result ≡ offer_answer self.old q }
        ensures table { self.new ≡ offered self.old q }
    {
        self.table = call_offer::offer(self.table, q.name, q.kind, q.period, q.min, q.max, q.life)?;
        Ok(())
    }

    #[tactic(auto, using(law_ahead::proofs::Formed::withdrawn_formed))]
    pub fn withdraw(&mut self, stream: u32) -> Result<(), HeldRefusal>
        ensures answer { answered held_number result ≡ held_answer self.old (named stream) }
        ensures table { self.new ≡ withdrawn self.old (named stream) }
    {
        self.table = call_held::withdraw(self.table, Name { stream })?;
        Ok(())
    }

    pub fn enquire(&self, stream: u32) -> Result<Entry, HeldRefusal>
        ensures { let n = named stream in
            (answered held_number result ≡ held_answer self.now n) × (result_unwrap_or result free_entry ≡ enquired self.now n) }
    {
        call_held::enquire(self.table, Name { stream })
    }

    // How many records the plan has.
    #[tactic(auto, using(law_ahead::proofs::Formed::beacon_formed))]
    pub fn beacon(&mut self, plan: &mut [u32]) -> Result<usize, BeaconRefusal>
        ensures { let b = beacon self.old plan.old in
            (answered beacon_number result ≡ b.answer) × ((result_unwrap_or result 0 ≡ b.count)
            × ((self.new ≡ b.table) × (plan.new ≡ b.words))) }
    {
        let b = call_beacon::beacon(self.table, plan)?;
        self.table = b.table;
        Ok(b.count)
    }
}
