// Types, presence, and how long a data may be.
use crate::draft::{Case, Line, Template};
use crate::report;

// Numbers that are no type's.
const NUMBERS: [Case; 6] = [
    Case(
        "type 0",
        &[Template(1, 0, 20, &[Line::Typed(11, 0, 0, 0, &[0])])],
    ),
    Case(
        "type 9",
        &[Template(1, 0, 20, &[Line::Typed(11, 0, 0, 9, &[0])])],
    ),
    Case(
        "type 64",
        &[Template(1, 0, 20, &[Line::Typed(11, 0, 0, 64, &[1])])],
    ),
    Case(
        "type 67",
        &[Template(1, 0, 20, &[Line::Typed(11, 0, 0, 67, &[])])],
    ),
    Case(
        "type 255",
        &[Template(1, 0, 20, &[Line::Typed(11, 0, 0, 255, &[0])])],
    ),
    Case(
        "unknown type in a group",
        &[Template(
            1,
            0,
            0,
            &[Line::Group(9, 1), Line::Typed(11, 0, 0, 9, &[0]), Line::End],
        )],
    ),
];

// What names absent, and how many decimals there are.
const ABSENTS: [Case; 9] = [
    Case(
        "unsigned without argument",
        &[Template(1, 0, 20, &[Line::Typed(11, 0, 0, 1, &[])])],
    ),
    Case(
        "unsigned with two bytes of argument",
        &[Template(1, 0, 20, &[Line::Typed(11, 0, 0, 1, &[0, 0])])],
    ),
    Case(
        "unsigned with absent 2",
        &[Template(1, 0, 20, &[Line::Typed(11, 0, 0, 4, &[2])])],
    ),
    Case(
        "unsigned with absent 3",
        &[Template(1, 0, 20, &[Line::Typed(11, 0, 0, 4, &[3])])],
    ),
    Case(
        "signed with absent 3",
        &[Template(1, 0, 20, &[Line::Typed(11, 0, 0, 5, &[3])])],
    ),
    Case(
        "signed with absent 4",
        &[Template(1, 0, 20, &[Line::Typed(11, 0, 0, 5, &[4])])],
    ),
    Case(
        "decimal without decimals",
        &[Template(1, 0, 20, &[Line::Typed(11, 0, 0, 8, &[0])])],
    ),
    Case(
        "decimal with 9 decimals",
        &[Template(1, 0, 20, &[Line::Typed(11, 0, 0, 8, &[3, 9])])],
    ),
    Case(
        "decimal with 10 decimals",
        &[Template(1, 0, 20, &[Line::Typed(11, 0, 0, 8, &[3, 10])])],
    ),
];

// Lists of one to 32 bytes that rise.
const LISTS: [Case; 5] = [
    Case(
        "list of none",
        &[Template(1, 0, 20, &[Line::Typed(11, 0, 0, 7, &[])])],
    ),
    Case(
        "list that repeats",
        &[Template(1, 0, 20, &[Line::Typed(11, 0, 0, 7, &[49, 49])])],
    ),
    Case(
        "list that falls",
        &[Template(1, 0, 20, &[Line::Typed(11, 0, 0, 7, &[50, 49])])],
    ),
    Case(
        "list of 32",
        &[Template(
            1,
            0,
            20,
            &[Line::Typed(
                11,
                0,
                0,
                7,
                &[
                    0, 1, 2, 3, 4, 5, 6, 7, 8, 9, 10, 11, 12, 13, 14, 15, 16, 17, 18, 19, 20, 21,
                    22, 23, 24, 25, 26, 27, 28, 29, 30, 31,
                ],
            )],
        )],
    ),
    Case(
        "list of 33",
        &[Template(
            1,
            0,
            20,
            &[Line::Typed(
                11,
                0,
                0,
                7,
                &[
                    0, 1, 2, 3, 4, 5, 6, 7, 8, 9, 10, 11, 12, 13, 14, 15, 16, 17, 18, 19, 20, 21,
                    22, 23, 24, 25, 26, 27, 28, 29, 30, 31, 32,
                ],
            )],
        )],
    ),
];

// Texts of 1 to 20 bytes, and investors.
const TEXTS: [Case; 7] = [
    Case(
        "text without argument",
        &[Template(1, 0, 20, &[Line::Typed(11, 0, 0, 65, &[])])],
    ),
    Case(
        "text of width 0",
        &[Template(1, 0, 20, &[Line::Typed(11, 0, 0, 65, &[0])])],
    ),
    Case(
        "text of width 1",
        &[Template(1, 0, 20, &[Line::Typed(11, 0, 0, 65, &[1])])],
    ),
    Case(
        "text of width 20",
        &[Template(1, 0, 20, &[Line::Typed(11, 0, 0, 65, &[20])])],
    ),
    Case(
        "text of width 21",
        &[Template(1, 0, 20, &[Line::Typed(11, 0, 0, 65, &[21])])],
    ),
    Case(
        "investor",
        &[Template(1, 0, 20, &[Line::Typed(11, 0, 0, 66, &[])])],
    ),
    Case(
        "investor with an argument",
        &[Template(1, 0, 20, &[Line::Typed(11, 0, 0, 66, &[0])])],
    ),
];

// A field is optional or required.
const PRESENCES: [Case; 5] = [
    Case(
        "presence 0",
        &[Template(1, 0, 1, &[Line::Present(11, 0, 0)])],
    ),
    Case(
        "presence 1",
        &[Template(1, 0, 1, &[Line::Present(11, 0, 1)])],
    ),
    Case(
        "presence 2",
        &[Template(1, 0, 1, &[Line::Present(11, 0, 2)])],
    ),
    Case(
        "presence 255",
        &[Template(1, 0, 1, &[Line::Present(11, 0, 255)])],
    ),
    Case(
        "presence 2 in a group",
        &[Template(
            1,
            0,
            0,
            &[Line::Group(9, 1), Line::Present(11, 0, 2), Line::End],
        )],
    ),
];

// A data has at most 1 to 254 bytes.
const LONGESTS: [Case; 5] = [
    Case("longest 0", &[Template(1, 0, 0, &[Line::Data(9, 0, 0)])]),
    Case("longest 1", &[Template(1, 0, 0, &[Line::Data(9, 0, 1)])]),
    Case(
        "longest 254",
        &[Template(1, 0, 0, &[Line::Data(9, 0, 254)])],
    ),
    Case(
        "longest 255",
        &[Template(1, 0, 0, &[Line::Data(9, 0, 255)])],
    ),
    Case(
        "longest 0 of a second data",
        &[Template(1, 0, 0, &[Line::Data(9, 0, 1), Line::Data(10, 0, 0)])],
    ),
];

pub fn run(rt: &HostRuntime) -> anyhow::Result<()> {
    report::cases(rt, &NUMBERS)?;
    report::cases(rt, &ABSENTS)?;
    report::cases(rt, &LISTS)?;
    report::cases(rt, &TEXTS)?;
    report::cases(rt, &PRESENCES)?;
    report::cases(rt, &LONGESTS)
}
