// What lines there can be, and what lines follow one another.
use crate::draft::{Case, Line, Template};
use crate::report;
use crate::worked::Changed;

// Templates that do not fit the dictionary, lines of no length, and sorts that there are not.
const CHANGES: [Changed; 11] = [
    Changed("template past the end", &[(8, 94)], &[]),
    Changed("template length 0", &[(8, 0)], &[]),
    Changed("template length 7", &[(8, 7)], &[]),
    Changed("one byte behind the last template", &[(2, 101)], &[8]),
    Changed(
        "seven bytes behind the last template",
        &[(2, 107)],
        &[0, 7, 0, 8, 0, 0, 0],
    ),
    Changed("line length 0", &[(15, 0)], &[]),
    Changed("line length 1", &[(15, 1)], &[]),
    Changed("line length 1 behind others", &[(89, 1)], &[]),
    Changed("sort 0", &[(16, 0)], &[]),
    Changed("sort 5", &[(16, 5)], &[]),
    Changed("sort 255", &[(16, 255)], &[]),
];

// A template that fits, and lines that do not fit theirs.
const FITS: [Case; 4] = [
    Case("template length 8", &[Template(1, 0, 0, &[])]),
    Case(
        "line past its template",
        &[
            Template(
                1,
                0,
                1,
                &[Line::Bytes(&[14, 1, 0, 0, 0, 11, 0, 0, 0, 0, 7, 0, 1])],
            ),
            Template(2, 0, 0, &[]),
        ],
    ),
    Case(
        "one byte left in a template",
        &[
            Template(1, 0, 1, &[Line::Field(11, 0, 0), Line::Bytes(&[2])]),
            Template(2, 0, 0, &[]),
        ],
    ),
    Case(
        "one byte in a template",
        &[Template(1, 0, 0, &[Line::Bytes(&[1])])],
    ),
];

// Lengths that a sort cannot have.
const LENGTHS: [Case; 7] = [
    Case(
        "field of 11 bytes",
        &[Template(
            1,
            0,
            8,
            &[Line::Bytes(&[11, 1, 0, 0, 0, 9, 0, 0, 0, 0, 66])],
        )],
    ),
    Case(
        "field of 12 bytes",
        &[Template(1, 0, 8, &[Line::Typed(9, 0, 0, 66, &[])])],
    ),
    Case(
        "group of 7 bytes",
        &[Template(1, 0, 0, &[Line::Bytes(&[7, 2, 0, 0, 0, 9, 0]), Line::End])],
    ),
    Case(
        "group of 9 bytes",
        &[Template(
            1,
            0,
            0,
            &[Line::Bytes(&[9, 2, 0, 0, 0, 9, 0, 0, 0]), Line::End],
        )],
    ),
    Case(
        "end of 3 bytes",
        &[Template(1, 0, 0, &[Line::Group(9, 0), Line::Bytes(&[3, 3, 0])])],
    ),
    Case(
        "data of 8 bytes",
        &[Template(1, 0, 0, &[Line::Bytes(&[8, 4, 0, 0, 0, 9, 0, 0])])],
    ),
    Case(
        "data of 10 bytes",
        &[Template(1, 0, 0, &[Line::Bytes(&[10, 4, 0, 0, 0, 9, 0, 0, 1, 0])])],
    ),
];

// Root fields come first, then groups, then data.
const SEQUENCE: [Case; 7] = [
    Case(
        "field behind a group",
        &[Template(
            1,
            0,
            1,
            &[Line::Group(9, 0), Line::End, Line::Field(11, 0, 0)],
        )],
    ),
    Case(
        "field behind a data",
        &[Template(1, 0, 1, &[Line::Data(9, 0, 1), Line::Field(11, 0, 0)])],
    ),
    Case(
        "group behind a data",
        &[Template(
            1,
            0,
            0,
            &[Line::Data(9, 0, 1), Line::Group(10, 0), Line::End],
        )],
    ),
    Case("end at the front", &[Template(1, 0, 0, &[Line::End])]),
    Case(
        "end behind a root field",
        &[Template(1, 0, 1, &[Line::Field(11, 0, 0), Line::End])],
    ),
    Case(
        "end behind an end",
        &[Template(1, 0, 0, &[Line::Group(9, 0), Line::End, Line::End])],
    ),
    Case(
        "end behind a data",
        &[Template(1, 0, 0, &[Line::Data(9, 0, 1), Line::End])],
    ),
];

// A group holds only fields, and ends.
const GROUPS: [Case; 8] = [
    Case(
        "group inside a group",
        &[Template(
            1,
            0,
            0,
            &[Line::Group(9, 0), Line::Group(10, 0), Line::End, Line::End],
        )],
    ),
    Case(
        "data inside a group",
        &[Template(
            1,
            0,
            0,
            &[Line::Group(9, 0), Line::Data(10, 0, 1), Line::End],
        )],
    ),
    Case(
        "group not ended",
        &[Template(1, 0, 0, &[Line::Group(9, 0)])],
    ),
    Case(
        "group with a field not ended",
        &[Template(
            1,
            0,
            1,
            &[
                Line::Field(11, 0, 0),
                Line::Group(9, 1),
                Line::Field(12, 0, 0),
            ],
        )],
    ),
    Case(
        "second group not ended",
        &[Template(1, 0, 0, &[Line::Group(9, 0), Line::End, Line::Group(10, 0)])],
    ),
    Case(
        "group not ended behind a repeated tag",
        &[Template(
            1,
            0,
            0,
            &[
                Line::Group(9, 2),
                Line::Field(11, 0, 0),
                Line::Field(11, 1, 0),
            ],
        )],
    ),
    Case(
        "group not ended before the next head",
        &[
            Template(1, 0, 0, &[Line::Group(9, 0)]),
            Template(1, 0, 0, &[]),
        ],
    ),
    Case(
        "group without fields",
        &[Template(1, 0, 0, &[Line::Group(9, 0), Line::End])],
    ),
];

pub fn run(rt: &HostRuntime) -> anyhow::Result<()> {
    report::changes(rt, &CHANGES)?;
    report::cases(rt, &FITS)?;
    report::cases(rt, &LENGTHS)?;
    report::cases(rt, &SEQUENCE)?;
    report::cases(rt, &GROUPS)
}
