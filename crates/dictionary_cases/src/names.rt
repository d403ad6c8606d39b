// Template numbers, tags, and how many lines of a sort there may be.
use crate::draft::{Case, Line, Template, headed, put_line, put_section};
use crate::report;
use std::alloc::AllocError;

// Each template number is above the one before.
const NUMBERS: [Case; 3] = [
    Case(
        "template number as before",
        &[Template(2, 0, 0, &[]), Template(2, 0, 0, &[])],
    ),
    Case(
        "template number below",
        &[Template(2, 0, 0, &[]), Template(1, 0, 0, &[])],
    ),
    Case(
        "template numbers 0 and 65,535",
        &[Template(0, 0, 0, &[]), Template(65535, 0, 0, &[])],
    ),
];

// Tag 0 names the root.
const ZEROS: [Case; 4] = [
    Case(
        "field of tag 0",
        &[Template(1, 0, 1, &[Line::Field(0, 0, 0)])],
    ),
    Case(
        "group of tag 0",
        &[Template(1, 0, 0, &[Line::Group(0, 0), Line::End])],
    ),
    Case(
        "data of tag 0",
        &[Template(1, 0, 0, &[Line::Data(0, 0, 1)])],
    ),
    Case(
        "field of tag 0 in a group",
        &[Template(
            1,
            0,
            0,
            &[Line::Group(9, 1), Line::Field(0, 0, 0), Line::End],
        )],
    ),
];

// Root fields, groups and data share one set of tags.
const REPEATS: [Case; 9] = [
    Case(
        "field and field",
        &[Template(1, 0, 2, &[Line::Field(11, 0, 0), Line::Field(11, 1, 0)])],
    ),
    Case(
        "field and field but one",
        &[Template(
            1,
            0,
            3,
            &[
                Line::Field(11, 0, 0),
                Line::Field(12, 1, 0),
                Line::Field(11, 2, 0),
            ],
        )],
    ),
    Case(
        "field and group",
        &[Template(
            1,
            0,
            1,
            &[Line::Field(11, 0, 0), Line::Group(11, 0), Line::End],
        )],
    ),
    Case(
        "field and data",
        &[Template(1, 0, 1, &[Line::Field(11, 0, 0), Line::Data(11, 0, 1)])],
    ),
    Case(
        "field and data behind a group",
        &[Template(
            1,
            0,
            1,
            &[
                Line::Field(11, 0, 0),
                Line::Group(9, 0),
                Line::End,
                Line::Data(11, 0, 1),
            ],
        )],
    ),
    Case(
        "group and group",
        &[Template(
            1,
            0,
            0,
            &[Line::Group(9, 0), Line::End, Line::Group(9, 0), Line::End],
        )],
    ),
    Case(
        "group and data",
        &[Template(
            1,
            0,
            0,
            &[Line::Group(9, 0), Line::End, Line::Data(9, 0, 1)],
        )],
    ),
    Case(
        "data and data",
        &[Template(1, 0, 0, &[Line::Data(9, 0, 1), Line::Data(9, 0, 1)])],
    ),
    Case(
        "data and data but one",
        &[Template(
            1,
            0,
            0,
            &[
                Line::Data(9, 0, 1),
                Line::Data(10, 0, 1),
                Line::Data(9, 0, 1),
            ],
        )],
    ),
];

// A group's fields have a set of their own.
const OWN_TAGS: [Case; 9] = [
    Case(
        "field and field in a group",
        &[Template(
            1,
            0,
            0,
            &[
                Line::Group(9, 2),
                Line::Field(11, 0, 0),
                Line::Field(11, 1, 0),
                Line::End,
            ],
        )],
    ),
    Case(
        "field and field but one in a group",
        &[Template(
            1,
            0,
            0,
            &[
                Line::Group(9, 3),
                Line::Field(11, 0, 0),
                Line::Field(12, 1, 0),
                Line::Field(11, 2, 0),
                Line::End,
            ],
        )],
    ),
    Case(
        "a root field's tag in a group",
        &[Template(
            1,
            0,
            1,
            &[
                Line::Field(11, 0, 0),
                Line::Group(9, 1),
                Line::Field(11, 0, 0),
                Line::End,
            ],
        )],
    ),
    Case(
        "a group's tag in it",
        &[Template(
            1,
            0,
            0,
            &[Line::Group(9, 1), Line::Field(9, 0, 0), Line::End],
        )],
    ),
    Case(
        "one tag in two groups",
        &[Template(
            1,
            0,
            0,
            &[
                Line::Group(9, 1),
                Line::Field(11, 0, 0),
                Line::End,
                Line::Group(10, 1),
                Line::Field(11, 0, 0),
                Line::End,
            ],
        )],
    ),
    Case(
        "a group with the tag of a group's field",
        &[Template(
            1,
            0,
            0,
            &[
                Line::Group(9, 1),
                Line::Field(11, 0, 0),
                Line::End,
                Line::Group(11, 0),
                Line::End,
            ],
        )],
    ),
    Case(
        "a data with the tag of a group's field",
        &[Template(
            1,
            0,
            0,
            &[
                Line::Group(9, 1),
                Line::Field(11, 0, 0),
                Line::End,
                Line::Data(11, 0, 1),
            ],
        )],
    ),
    Case(
        "one tag in two templates",
        &[
            Template(1, 0, 1, &[Line::Field(11, 0, 0)]),
            Template(2, 0, 1, &[Line::Field(11, 0, 0)]),
        ],
    ),
    Case(
        "tags that differ in one byte",
        &[Template(
            1,
            0,
            2,
            &[Line::Field(11, 0, 0), Line::Field(0x0100000B, 1, 0)],
        )],
    ),
];

// Fields with tags from 1 on, one byte each.
fn put_fields(body: &mut Vec<u8>, count: u16) -> Result<(), AllocError> {
    for i in 0..count {
        put_line(body, Line::Field(u32::from(i).saturating_add(1), i, 0))?;
    }
    Ok(())
}

// A group of so many fields.
fn put_group(body: &mut Vec<u8>, tag: u32, count: u16) -> Result<(), AllocError> {
    put_line(body, Line::Group(tag, count))?;
    put_fields(body, count)?;
    put_line(body, Line::End)
}

// A dictionary of one template.
fn one(rt: &HostRuntime, label: &str, size: u16, body: &[u8]) -> anyhow::Result<()> {
    let mut rest = Vec::new(rt.alloc());
    put_section(&mut rest, 1, 0, size, body)?;
    let made = headed(rt.alloc(), rest.as_slice())?;
    report::bytes(rt, label, made.as_slice())
}

// Each of these puts other lines; what they share is the dictionary of one template.
fn root_fields(rt: &HostRuntime, label: &str, count: u16) -> anyhow::Result<()> {
    let mut body = Vec::new(rt.alloc());
    put_fields(&mut body, count)?;
    one(rt, label, count, body.as_slice())
}

fn group_fields(rt: &HostRuntime, label: &str, count: u16) -> anyhow::Result<()> {
    let mut body = Vec::new(rt.alloc());
    put_group(&mut body, 100, count)?;
    one(rt, label, 0, body.as_slice())
}

// As many in the root, and in each of two groups.
fn fields_in_each(rt: &HostRuntime, label: &str, count: u16) -> anyhow::Result<()> {
    let mut body = Vec::new(rt.alloc());
    put_fields(&mut body, count)?;
    put_group(&mut body, 100, count)?;
    put_group(&mut body, 101, count)?;
    one(rt, label, count, body.as_slice())
}

fn groups(rt: &HostRuntime, label: &str, count: u32) -> anyhow::Result<()> {
    let mut body = Vec::new(rt.alloc());
    for i in 0..count {
        put_group(&mut body, i.saturating_add(1), 0)?;
    }
    one(rt, label, 0, body.as_slice())
}

fn parts(rt: &HostRuntime, label: &str, count: u32) -> anyhow::Result<()> {
    let mut body = Vec::new(rt.alloc());
    for i in 0..count {
        put_line(&mut body, Line::Data(i.saturating_add(1), 0, 1))?;
    }
    one(rt, label, 0, body.as_slice())
}

// At most 64 fields in a block, 8 groups and 8 data in a template.
fn limits(rt: &HostRuntime) -> anyhow::Result<()> {
    root_fields(rt, "64 root fields", 64)?;
    root_fields(rt, "65 root fields", 65)?;
    group_fields(rt, "64 fields in a group", 64)?;
    group_fields(rt, "65 fields in a group", 65)?;
    fields_in_each(rt, "64 fields in each block", 64)?;
    groups(rt, "8 groups", 8)?;
    groups(rt, "9 groups", 9)?;
    parts(rt, "8 data", 8)?;
    parts(rt, "9 data", 9)
}

pub fn run(rt: &HostRuntime) -> anyhow::Result<()> {
    report::cases(rt, &NUMBERS)?;
    report::cases(rt, &ZEROS)?;
    report::cases(rt, &REPEATS)?;
    report::cases(rt, &OWN_TAGS)?;
    limits(rt)
}
