// Which of two broken rules is told.
use crate::draft::{Case, Line, Template};
use crate::report;

// Shape and names line by line, shape first.
const LINES: [Case; 6] = [
    Case(
        "name in template 1, shape in 2",
        &[
            Template(1, 0, 1, &[Line::Field(0, 0, 0)]),
            Template(2, 0, 0, &[Line::End]),
        ],
    ),
    Case(
        "shape in template 1, name in 2",
        &[
            Template(1, 0, 0, &[Line::End]),
            Template(2, 0, 1, &[Line::Field(0, 0, 0)]),
        ],
    ),
    Case(
        "name on line 1, shape on 2",
        &[Template(1, 0, 1, &[Line::Field(0, 0, 0), Line::End])],
    ),
    Case(
        "shape and name on one line",
        &[Template(
            1,
            0,
            1,
            &[Line::Group(9, 0), Line::End, Line::Field(0, 0, 0)],
        )],
    ),
    Case(
        "name of template 2, shape in it",
        &[Template(1, 0, 0, &[]), Template(1, 0, 0, &[Line::End])],
    ),
    Case(
        "shape in template 1, name of 2",
        &[Template(1, 0, 0, &[Line::End]), Template(1, 0, 0, &[])],
    ),
];

// Both over the whole dictionary before types and geometry.
const ROUNDS: [Case; 5] = [
    Case(
        "type in template 1, shape in 2",
        &[
            Template(1, 0, 1, &[Line::Typed(11, 0, 0, 9, &[0])]),
            Template(2, 0, 0, &[Line::End]),
        ],
    ),
    Case(
        "type in template 1, name in 2",
        &[
            Template(1, 0, 1, &[Line::Typed(11, 0, 0, 9, &[0])]),
            Template(2, 0, 1, &[Line::Field(0, 0, 0)]),
        ],
    ),
    Case(
        "block of template 1, shape in 2",
        &[
            Template(1, 0, 16373, &[Line::Field(11, 0, 0)]),
            Template(2, 0, 0, &[Line::End]),
        ],
    ),
    Case(
        "block in template 1, name of 2",
        &[
            Template(1, 0, 0, &[Line::Field(11, 0, 0)]),
            Template(1, 0, 0, &[]),
        ],
    ),
    Case(
        "type on line 1, group not ended",
        &[Template(
            1,
            0,
            1,
            &[Line::Typed(11, 0, 0, 9, &[0]), Line::Group(9, 0)],
        )],
    ),
];

// Types and geometry line by line, types first.
const LAST: [Case; 8] = [
    Case(
        "type and block on one line",
        &[Template(1, 0, 0, &[Line::Typed(11, 5, 7, 9, &[0])])],
    ),
    Case(
        "presence and block on one line",
        &[Template(1, 0, 0, &[Line::Present(11, 0, 2)])],
    ),
    Case(
        "longest and since on one line",
        &[Template(1, 0, 0, &[Line::Data(9, 7, 0)])],
    ),
    Case(
        "block on line 1, type on 2",
        &[Template(
            1,
            0,
            0,
            &[Line::Field(11, 0, 0), Line::Typed(12, 1, 0, 9, &[0])],
        )],
    ),
    Case(
        "type on line 1, block on 2",
        &[Template(
            1,
            0,
            1,
            &[Line::Typed(11, 0, 0, 9, &[0]), Line::Field(12, 1, 0)],
        )],
    ),
    Case(
        "block of the template, type on line 1",
        &[Template(1, 0, 16373, &[Line::Typed(11, 0, 0, 9, &[0])])],
    ),
    Case(
        "block in template 1, type in 2",
        &[
            Template(1, 0, 0, &[Line::Field(11, 0, 0)]),
            Template(2, 0, 1, &[Line::Typed(11, 0, 0, 9, &[0])]),
        ],
    ),
    Case(
        "type in template 1, block in 2",
        &[
            Template(1, 0, 1, &[Line::Typed(11, 0, 0, 9, &[0])]),
            Template(2, 0, 0, &[Line::Field(11, 0, 0)]),
        ],
    ),
];

pub fn run(rt: &HostRuntime) -> anyhow::Result<()> {
    report::cases(rt, &LINES)?;
    report::cases(rt, &ROUNDS)?;
    report::cases(rt, &LAST)
}
