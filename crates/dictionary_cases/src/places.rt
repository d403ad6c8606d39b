// Where fields stand in their block, since which version, and how long a block is.
use crate::draft::{Case, Line, Template, VERSION};
use crate::report;

// A field begins where the one above it ends, or behind.
const OFFSETS: [Case; 7] = [
    Case(
        "field inside the one above",
        &[Template(
            1,
            0,
            4,
            &[Line::Typed(11, 0, 0, 2, &[0]), Line::Field(12, 1, 0)],
        )],
    ),
    Case(
        "field at the place of the one above",
        &[Template(1, 0, 4, &[Line::Field(11, 0, 0), Line::Field(12, 0, 0)])],
    ),
    Case(
        "field in front of the one above",
        &[Template(1, 0, 4, &[Line::Field(11, 1, 0), Line::Field(12, 0, 0)])],
    ),
    Case(
        "field right behind the one above",
        &[Template(
            1,
            0,
            4,
            &[Line::Typed(11, 0, 0, 2, &[0]), Line::Field(12, 2, 0)],
        )],
    ),
    Case(
        "field far behind the one above",
        &[Template(1, 0, 4, &[Line::Field(11, 0, 0), Line::Field(12, 3, 0)])],
    ),
    Case(
        "field inside the one above in a group",
        &[Template(
            1,
            0,
            0,
            &[
                Line::Group(9, 4),
                Line::Typed(11, 0, 0, 2, &[0]),
                Line::Field(12, 1, 0),
                Line::End,
            ],
        )],
    ),
    Case(
        "field of a group below the root's end",
        &[Template(
            1,
            0,
            4,
            &[
                Line::Typed(11, 0, 0, 3, &[0]),
                Line::Group(9, 1),
                Line::Field(12, 0, 0),
                Line::End,
            ],
        )],
    ),
];

// A field ends within its block.
const ENDS: [Case; 7] = [
    Case(
        "field of the block's length",
        &[Template(1, 0, 4, &[Line::Typed(11, 0, 0, 3, &[0])])],
    ),
    Case(
        "field one past its block",
        &[Template(1, 0, 3, &[Line::Typed(11, 0, 0, 3, &[0])])],
    ),
    Case(
        "last field one past its block",
        &[Template(
            1,
            0,
            4,
            &[Line::Field(11, 0, 0), Line::Typed(12, 1, 0, 3, &[0])],
        )],
    ),
    Case(
        "field of the length of a group's block",
        &[Template(
            1,
            0,
            0,
            &[Line::Group(9, 4), Line::Typed(11, 0, 0, 3, &[0]), Line::End],
        )],
    ),
    Case(
        "field one past a group's block",
        &[Template(
            1,
            0,
            8,
            &[Line::Group(9, 3), Line::Typed(11, 0, 0, 3, &[0]), Line::End],
        )],
    ),
    Case(
        "field in a block of none",
        &[Template(1, 0, 0, &[Line::Field(11, 0, 0)])],
    ),
    Case(
        "field at offset 65,535",
        &[Template(1, 0, 16372, &[Line::Typed(11, 65535, 0, 3, &[0])])],
    ),
];

// Since does not fall along a block or the data.
const SINCES: [Case; 10] = [
    Case(
        "since falls in the root",
        &[Template(1, 0, 2, &[Line::Field(11, 0, 5), Line::Field(12, 1, 4)])],
    ),
    Case(
        "since falls in a group",
        &[Template(
            1,
            0,
            0,
            &[
                Line::Group(9, 2),
                Line::Field(11, 0, 5),
                Line::Field(12, 1, 4),
                Line::End,
            ],
        )],
    ),
    Case(
        "since falls among the data",
        &[Template(1, 0, 0, &[Line::Data(9, 5, 1), Line::Data(10, 4, 1)])],
    ),
    Case(
        "since stays and rises in the root",
        &[Template(
            1,
            0,
            3,
            &[
                Line::Field(11, 0, 4),
                Line::Field(12, 1, 4),
                Line::Field(13, 2, 5),
            ],
        )],
    ),
    Case(
        "since stays and rises among the data",
        &[Template(
            1,
            0,
            0,
            &[
                Line::Data(9, 4, 1),
                Line::Data(10, 4, 1),
                Line::Data(11, 5, 1),
            ],
        )],
    ),
    Case(
        "since falls from the root to a group",
        &[Template(
            1,
            0,
            1,
            &[
                Line::Field(11, 0, 5),
                Line::Group(9, 1),
                Line::Field(12, 0, 4),
                Line::End,
            ],
        )],
    ),
    Case(
        "since falls from group to group",
        &[Template(
            1,
            0,
            0,
            &[
                Line::Group(9, 1),
                Line::Field(11, 0, 5),
                Line::End,
                Line::Group(10, 1),
                Line::Field(11, 0, 4),
                Line::End,
            ],
        )],
    ),
    Case(
        "since falls from the root to the data",
        &[Template(1, 0, 1, &[Line::Field(11, 0, 5), Line::Data(9, 4, 1)])],
    ),
    Case(
        "since falls from a group to the data",
        &[Template(
            1,
            0,
            0,
            &[
                Line::Group(9, 1),
                Line::Field(11, 0, 5),
                Line::End,
                Line::Data(10, 4, 1),
            ],
        )],
    ),
    Case(
        "since falls from template to template",
        &[
            Template(1, 0, 1, &[Line::Field(11, 0, 5), Line::Data(9, 5, 1)]),
            Template(2, 0, 1, &[Line::Field(11, 0, 4), Line::Data(9, 4, 1)]),
        ],
    ),
];

// No since is above the schema version.
const VERSIONS: [Case; 8] = [
    Case("template of the version", &[Template(1, VERSION, 0, &[])]),
    Case("template above the version", &[Template(1, 7, 0, &[])]),
    Case(
        "field of the version",
        &[Template(1, 0, 1, &[Line::Field(11, 0, VERSION)])],
    ),
    Case(
        "field above the version",
        &[Template(1, 0, 1, &[Line::Field(11, 0, 7)])],
    ),
    Case(
        "field of a group above the version",
        &[Template(
            1,
            0,
            0,
            &[Line::Group(9, 1), Line::Field(11, 0, 7), Line::End],
        )],
    ),
    Case(
        "data of the version",
        &[Template(1, 0, 0, &[Line::Data(9, VERSION, 1)])],
    ),
    Case(
        "data above the version",
        &[Template(1, 0, 0, &[Line::Data(9, 7, 1)])],
    ),
    Case(
        "field and data older than their template",
        &[Template(1, 5, 1, &[Line::Field(11, 0, 4), Line::Data(9, 4, 1)])],
    ),
];

// The longest block has 16,372 bytes.
const BLOCKS: [Case; 7] = [
    Case("root block of 16,372 bytes", &[Template(1, 0, 16372, &[])]),
    Case("root block of 16,373 bytes", &[Template(1, 0, 16373, &[])]),
    Case(
        "entry block of 16,372 bytes",
        &[Template(1, 0, 0, &[Line::Group(9, 16372), Line::End])],
    ),
    Case(
        "entry block of 16,373 bytes",
        &[Template(1, 0, 0, &[Line::Group(9, 16373), Line::End])],
    ),
    Case(
        "field at the end of the longest block",
        &[Template(1, 0, 16372, &[Line::Field(11, 16371, 0)])],
    ),
    Case(
        "field one past the longest block",
        &[Template(1, 0, 16372, &[Line::Field(11, 16372, 0)])],
    ),
    Case(
        "longest block and a group",
        &[Template(1, 0, 16372, &[Line::Group(9, 16372), Line::End])],
    ),
];

pub fn run(rt: &HostRuntime) -> anyhow::Result<()> {
    report::cases(rt, &OFFSETS)?;
    report::cases(rt, &ENDS)?;
    report::cases(rt, &SINCES)?;
    report::cases(rt, &VERSIONS)?;
    report::cases(rt, &BLOCKS)
}
