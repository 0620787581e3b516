//! Tests of sources and sinks: a long text goes in one call of std's reader or writer.
use crate::tests::counts::Counted;
use dmf_text::{Sink, Source, StdSink, StdSource};
use std::alloc::{AllocError, Global};
use std::test::Fail;

/// 5,000 bytes, of which no two neighbours are equal.
fn long_text(alloc: Global) -> Result<Vec<u8>, AllocError> {
    let mut text = Vec::new(alloc);
    for number in 0..5000u16 {
        text.push((number % 251) as u8)?;
    }
    Ok(text)
}

/// Whether one read gives the text.
fn is_read_at_once(text: &[u8]) -> bool {
    let mut calls = 0;
    let mut source = StdSource::new(Counted {
        inner: text,
        calls: &mut calls,
    });
    let mut buffer = [0u8; 5000];
    source.read(&mut buffer) == Ok(5000) && buffer.as_slice() == text && calls == 1
}

/// Whether one write takes the text.
fn is_put_at_once(alloc: Global, text: &[u8]) -> bool {
    let mut calls = 0;
    let mut held = Vec::new(alloc);
    let mut sink = StdSink::new(Counted {
        inner: &mut held,
        calls: &mut calls,
    });
    sink.put(text) == Ok(5000) && sink.flush().is_ok() && held.as_slice() == text && calls == 1
}

#[test]
fn a_long_text_goes_in_one_call(rt: HostRuntime) -> Result<(), Fail> {
    let text = long_text(rt.alloc())?;
    assert!(rt; is_read_at_once(&text), "read");
    assert!(rt; is_put_at_once(rt.alloc(), &text), "put");
    Ok(())
}
