// The templates of a dictionary, as they are seen at a version.
ghost use Rattle.std.specs.Prelude.{◌≡◌};

use dictionary::{Section, Sections};

// The templates that are still to come: the comparison of editions needs them by what they hold, and the walk inside says them by their bytes.
#[derive(Clone, Copy)]
pub struct Templates<'a> {
    pub sections: Sections<'a>,
}

impl<'a> Templates<'a> {
    // The templates that the bytes hold, as far as they are templates.
    pub fn of(bytes: &'a [u8]) -> Templates<'a>
        ensures { result.sections.rest.now ≡ bytes.now }
    {
        Templates {
            sections: Sections::of(bytes),
        }
    }
}

impl<'a> Iterator for Templates<'a> {
    ghost use Rattle.std.specs.Iterator.{item_count};
    ghost use Rattle.lines.specs.Walks.{templates_left, GivesTemplate};

    type Item = Section<'a>;

    ghost next_gives = { GivesTemplate };

    ghost remaining = { item_count templates_left };

    fn next(&mut self) -> Option<Section<'a>> {
        self.sections.next()
    }
}

// Those of them that are not newer than the version.
#[derive(Clone, Copy)]
pub struct SeenTemplates<'a> {
    pub version: u16,
    pub templates: Templates<'a>,
}

impl<'a> SeenTemplates<'a> {
    // The templates that the bytes hold, those that are seen at the version.
    pub fn of(version: u16, bytes: &'a [u8]) -> SeenTemplates<'a>
        ensures version { result.version ≡ version }
        ensures bytes { result.templates.sections.rest.now ≡ bytes.now }
    {
        SeenTemplates {
            version,
            templates: Templates::of(bytes),
        }
    }
}

impl<'a> Iterator for SeenTemplates<'a> {
    ghost use Rattle.std.specs.Iterator.{item_count};
    ghost use Rattle.lines.specs.Walks.{seen_templates_left, GivesSeenTemplate};

    type Item = Section<'a>;

    ghost next_gives = { GivesSeenTemplate };

    ghost remaining = { item_count seen_templates_left };

    fn next(&mut self) -> Option<Section<'a>> {
        let version = self.version;
        self.templates.find(|section| section.since <= version)
    }
}
