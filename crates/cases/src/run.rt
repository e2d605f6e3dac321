// What a test does with its cases.
use session::transcript;
use std::alloc::Global;
use std::process::Abort;
use std::test::Fail;

// The input prints just this.
pub(crate) fn prints(
    rt: &impl Abort,
    heap: Global,
    input: &[u8],
    expected: &str,
) -> Result<(), Fail> {
    let out = transcript(heap, input)?;
    assert_eq!(rt; out.as_str(), expected);
    Ok(())
}

// The same of each case, with `start` before it.
pub(crate) fn all(
    rt: &impl Abort,
    heap: Global,
    start: &[u8],
    cases: &[(&[u8], &str)],
) -> Result<(), Fail> {
    for (lines, expected) in cases {
        let mut input = Vec::from_slice(heap, start)?;
        input.extend_from_slice(lines)?;
        let case = std::str::from_utf8(lines).unwrap_or("not a text");
        let out = transcript(heap, input.as_slice())?;
        assert_eq!(rt; out.as_str(), *expected, "{case}");
    }
    Ok(())
}
