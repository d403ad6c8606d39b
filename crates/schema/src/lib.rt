// What a dictionary says, its rules and its laws: definitions and their proofs, which the code of the dictionary cites.
#![tactic(auto)]

ghost use Rattle.std.specs.Prelude.{◌≡◌};
ghost use Rattle.types.specs.Kinds.{Known};
ghost use Rattle.schema.specs.Laws.{EditionsAgree};

// Does nothing: its contract is that the editions of a dictionary agree, whatever types a library knows.
pub fn editions_agree() -> u8
    ensures value { result ≡ 0 }
    ensures law { (known : Known) → EditionsAgree known }
{
    0
}
