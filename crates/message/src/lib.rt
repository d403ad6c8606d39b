// What a message is, its frame, and what frames say: definitions and their laws, which the code of frames cites.
#![tactic(auto)]

ghost use Rattle.std.specs.Prelude.{◌≡◌};
ghost use Rattle.types.specs.Kinds.{Known, AllLawful};
ghost use Rattle.message.specs.Laws.{FramesAreMessages, EditionsShareFrames};

// Does nothing: its contract is that frames carry messages, and that editions read one another's frames, under every lawful library.
pub fn frames_carry_messages() -> u8
    ensures value { result ≡ 0 }
    ensures frames { (known : Known) → AllLawful known → FramesAreMessages known }
    ensures editions { (known : Known) → AllLawful known → EditionsShareFrames known }
{
    0
}
