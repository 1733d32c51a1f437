ghost use Rattle.std.specs.Prelude.{◌≡◌, ℕ, Bool, [], ◌∷◌, nat_lt};
ghost use Rattle.plan.specs.Refusals.{told, unless_refused};
ghost use Rattle.plan.specs.declared.check.Plan.{Plan as PlanIn};
ghost use Rattle.shelf.specs.Meaning.{flat};

use plan::check::Plan;
use plan::refusal::Refusal;

/// What the tests before a call look at: the plan, whether a party rests, and whether a link is held. A link is given
/// by its number among the links of all parties. (A trait beside `Shelf`, which has questions like two of these: with it a
/// maker's calls begin, before the shelf's own contracts can be used; another maker may begin otherwise.)
pub trait Standing {
    ghost sizes: { Self → PlanIn };

    ghost at_rest: { Self → ℕ → Bool };

    ghost held: { Self → ℕ → Bool };

    /// The plan.
    fn sizes(&self) -> Plan
        ensures { result ≡ sizes self.now };

    /// Whether a party waits for nothing.
    fn rests(&self, party: u8) -> bool
        ensures { result ≡ at_rest self.now party };

    /// Whether a link is not empty.
    fn is_held(&self, at: usize) -> bool
        ensures { result ≡ held self.now at };

    /// The number of a party's link, if the party is there, rests, and has such a link.
    final fn free_link(&self, party: u8, link: u8) -> Result<usize, Refusal>
        ensures { told result ≡ unless_refused (record { number = 1; passes = nat_lt party (sizes self.now).parties } ∷ record { number = 2; passes = at_rest self.now party } ∷ record { number = 4; passes = nat_lt link (sizes self.now).links } ∷ []) (flat (sizes self.now) party link) }
    {
        let plan = self.sizes();
        if party >= plan.parties {
            return Err(Refusal::NoSuchParty);
        }
        if !self.rests(party) {
            return Err(Refusal::PartyBusy);
        }
        if link >= plan.links {
            return Err(Refusal::NoSuchLink);
        }
        Ok(party as usize * plan.links as usize + link as usize)
    }

    /// The same of a link that is not empty.
    final fn held_link(&self, party: u8, link: u8) -> Result<usize, Refusal>
        ensures { told result ≡ unless_refused (record { number = 1; passes = nat_lt party (sizes self.now).parties } ∷ record { number = 2; passes = at_rest self.now party } ∷ record { number = 4; passes = nat_lt link (sizes self.now).links } ∷ record { number = 8; passes = held self.now (flat (sizes self.now) party link) } ∷ []) (flat (sizes self.now) party link) }
    {
        let at = self.free_link(party, link)?;
        if !self.is_held(at) {
            return Err(Refusal::LinkEmpty);
        }
        Ok(at)
    }
}
