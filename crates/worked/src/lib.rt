// The worked examples, as theorems about the definitions that the contracts cite.
#![tactic(auto)]

ghost use Rattle.std.specs.Prelude.{◌≡◌};
ghost use Rattle.worked.specs.Worked.{WorkedExamples, WorkedCalls};

// How many worked examples of dictionaries and frames the contract states, each computed from the definitions.
pub fn worked_examples_stand() -> usize
    ensures count { result ≡ 11 }
    ensures law { WorkedExamples }
{
    11
}

// How many worked examples of calls on a form the contract states, each computed from the definitions.
pub fn worked_calls_stand() -> usize
    ensures count { result ≡ 11 }
    ensures law { WorkedCalls }
{
    11
}
