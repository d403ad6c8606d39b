// Acceptance of a frame.
ghost use Rattle.std.specs.Prelude.{◌≤◌, true};
ghost use Rattle.schema.specs.Laws.{Checked};
ghost use Rattle.schema.specs.Reading.{dictionary_of};
ghost use Rattle.message.specs.Messages.{frame_verdict, stated_version};
ghost use Rattle.message.specs.Laws.{AcceptedExactlyAsAFrame};
ghost use Rattle.frame.specs.Accepting.{Accepts};

use crate::accepted::Frame;
use judging::judge;
use types::TypeLibrary;
use wire::{Refusal, seen};

// Accepts bytes as a frame under a dictionary, or tells the first rule that they break.
pub fn accept<'a, L: TypeLibrary>(
    dictionary: &'a [u8],
    library: &L,
    bytes: &'a [u8],
) -> Result<Frame<'a>, Refusal>
    ensures value { Accepts result (frame_verdict (L.known library.now) dictionary.now bytes.now) bytes.entry dictionary.entry }
    ensures exact { Checked (L.known library.now) dictionary.now → stated_version bytes.now ≤ (dictionary_of dictionary.now).version → AcceptedExactlyAsAFrame true (L.known library.now) dictionary.now bytes.now }
{
    seen(bytes);
    judge(library, true, dictionary, bytes)?;
    Ok(Frame { bytes, dictionary })
}
