// The size of a dictionary and its layout.
use crate::draft::many;
use crate::report;
use crate::worked::Changed;

// The length bytes are held to the bytes passed, and then the layout is looked at.
const CHANGES: [Changed; 10] = [
    Changed("the worked dictionary", &[], &[]),
    Changed("length one less", &[(2, 99)], &[]),
    Changed("length one more", &[(2, 101)], &[]),
    Changed("length 256 more", &[(1, 1)], &[]),
    Changed("one byte more than the length", &[], &[0]),
    Changed("length before layout", &[(0, 2), (2, 99)], &[]),
    Changed("layout 0", &[(0, 0)], &[]),
    Changed("layout 2", &[(0, 2)], &[]),
    Changed("layout 255", &[(0, 255)], &[]),
    Changed("layout before lines", &[(0, 2), (15, 0)], &[]),
];

// Under 7 or over 32,000 bytes.
fn limits(rt: &HostRuntime) -> anyhow::Result<()> {
    report::bytes(rt, "no bytes", &[])?;
    report::bytes(rt, "6 bytes", &[1, 0, 6, 0, 1, 0])?;
    report::bytes(rt, "7 bytes", &[1, 0, 7, 0, 1, 0, 6])?;
    let most = many(rt.alloc(), 3997, &[9, 4, 0, 0, 0, 1, 0, 0, 1])?;
    report::bytes(rt, "32,000 bytes", most.as_slice())?;
    let over = many(rt.alloc(), 3997, &[8, 2, 0, 0, 0, 1, 0, 0, 2, 3])?;
    report::bytes(rt, "32,001 bytes", over.as_slice())
}

pub fn run(rt: &HostRuntime) -> anyhow::Result<()> {
    limits(rt)?;
    report::changes(rt, &CHANGES)
}
