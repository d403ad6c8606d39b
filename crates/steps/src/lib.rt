// What is done to the bytes of a buffer is what the calls on a form say: definitions and their law, which the code of forms cites.
#![tactic(auto)]

ghost use Rattle.std.specs.Prelude.{◌≡◌, ℕ, List};
ghost use Rattle.wire.specs.Bytes.{Bytes};
ghost use Rattle.types.specs.Kinds.{Known, AllLawful};
ghost use Rattle.steps.specs.Laws.{StepsAreCalls};

// Does nothing: its contract is that the steps are the calls, under every lawful library, every dictionary's bytes and every buffer.
pub fn steps_are_calls() -> u8
    ensures value { result ≡ 0 }
    ensures law { (known : Known) → AllLawful known → (s buffer : List ℕ) → Bytes buffer → StepsAreCalls known s buffer }
{
    0
}
