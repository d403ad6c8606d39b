// The calls on a form, and lists of them: definitions and their law, which the code of forms cites.
#![tactic(auto)]

ghost use Rattle.std.specs.Prelude.{◌≡◌};
ghost use Rattle.types.specs.Kinds.{Known, AllLawful};
ghost use Rattle.calls.specs.Laws.{EveryListKeepsTheLaw};
ghost use Rattle.calls.specs.Meant.{EveryCallMeansWhatItSays};

// Does nothing: its contract is that every list of calls keeps the law, under every lawful library.
pub fn every_list_of_calls_keeps_the_law() -> u8
    ensures value { result ≡ 0 }
    ensures law { (known : Known) → AllLawful known → EveryListKeepsTheLaw known }
{
    0
}

// Does nothing: its contract is what each call does to a message, said by group, entry and tag.
pub fn calls_mean_what_they_say() -> u8
    ensures value { result ≡ 0 }
    ensures calls { EveryCallMeansWhatItSays }
{
    0
}
