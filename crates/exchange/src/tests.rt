// The limit of the input, from a source that gives it in two parts as a pipe may.
use crate::input::whole_input;
use std::alloc::Global;
use std::io::Read;
use std::test::Fail;

fn length_read(heap: Global, first: usize, second: usize) -> Result<Option<usize>, Fail> {
    let front = vec![in heap; b'K'; first]?;
    let back = vec![in heap; b'T'; second]?;
    let input = whole_input(heap, front.as_slice().chain(back.as_slice()))?;
    Ok(input.map(|bytes| bytes.len()))
}

#[test]
fn input_within_the_limit_is_read_whole(rt: HostRuntime) -> Result<(), Fail> {
    let heap = rt.alloc();
    assert_eq!(rt; length_read(heap, 0, 0)?, Some(0));
    assert_eq!(rt; length_read(heap, 3, 24)?, Some(27));
    assert_eq!(rt; length_read(heap, 32_000, 768)?, Some(32_768));
    Ok(())
}

#[test]
fn longer_input_is_refused(rt: HostRuntime) -> Result<(), Fail> {
    let heap = rt.alloc();
    assert_eq!(rt; length_read(heap, 32_768, 1)?, None);
    assert_eq!(rt; length_read(heap, 1, 70_000)?, None);
    Ok(())
}
