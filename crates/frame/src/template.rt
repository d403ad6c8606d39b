// The template of a frame.
ghost use Rattle.std.specs.Prelude.{◌≡◌};
ghost use Rattle.message.specs.Messages.{stated_version};
ghost use Rattle.frame.specs.Templates.{shown_template, template_in, Short};

use crate::accepted::Frame;
use dictionary::{Section, find};
use judging::stated_at;
use lines::number_at;
use types::TypeLibrary;
use wire::{Refusal, seen};

impl<'a> Frame<'a> {
    // The version of the frame.
    pub(crate) fn version(&self) -> u16
        ensures { result ≡ stated_version self.now.bytes.now }
    {
        stated_at(self.bytes, 10)
    }

    // The frame's template in its dictionary, those lines too that are newer than the frame, once its types and geometry are checked; or none, where the dictionary has none at the frame's version.
    pub(crate) fn template<L: TypeLibrary>(
        &self,
        library: &L,
    ) -> Result<Option<Section<'a>>, Refusal>
        ensures value { shown_template result ≡ template_in (L.known library.now) self.now.dictionary.now self.now.bytes.now }
        ensures short { Short result }
    {
        seen(self.dictionary);
        let number = stated_at(self.bytes, 6);
        // That there is none is no refusal here, and ends the search before the geometry.
        let Some(found) = find(self.dictionary, number, self.version()) else {
            return Ok(None);
        };
        found.check_geometry(library, number_at(self.dictionary, 5))?;
        Ok(Some(found.section))
    }
}
