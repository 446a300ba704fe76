// The worked cases of the rules, by the definitions that the contracts of hash, algorithms and frames cite.
#![tactic(auto)]

ghost use Rattle.std.specs.Prelude.{◌≡◌, true};
ghost use Rattle.cases.specs.Cases.{WorkedCases};

fn work_cases()
    ensures { WorkedCases }
{}

// They hold, all of them.
pub fn worked_cases() -> bool
    ensures cases { WorkedCases }
    ensures answer { result ≡ true }
{
    work_cases();
    true
}
