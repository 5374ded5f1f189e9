// What a sink in memory holds, and which of its calls fail.
use disk_memory::MemSink;
use disk_model::{Failed, Sink};
use std::alloc::Global;
use std::test::Fail;

fn sink(alloc: Global) -> Result<MemSink, Fail> {
    let mut sink = MemSink::new(alloc);
    sink.fail_at(2)?;
    sink.stop_after(4);
    Ok(sink)
}

fn fails(sink: &mut MemSink, text: &str) -> bool {
    sink.write(text.as_bytes()) == Err(Failed)
}

#[test]
fn a_sink_fails_where_it_is_told_to(rt: HostRuntime) -> Result<(), Fail> {
    let mut sink = sink(rt.alloc())?;
    for (text, failed) in [
        ("a", false),
        ("b", true),
        ("c", false),
        ("d", false),
        ("e", true),
    ] {
        assert_eq!(rt; fails(&mut sink, text), failed, "at {text}");
    }
    assert_eq!(rt; sink.bytes(), b"acd".as_slice());
    assert_eq!(rt; sink.faults(), 2);
    Ok(())
}
