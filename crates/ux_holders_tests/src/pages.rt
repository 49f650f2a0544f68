//! Pages: the calls, and what each changed.

use crate::moments::Run;
use serde_json::Value;
use std::alloc::Global;
use std::test::Fail;

/// A file that is closed by its last number, after its path went, beside a socket whose name would end a script.
const SCRIPT: &str = "object p:f mem 00
proc 1000 1000 0 16
1 socket dgram -
1 bind 0 a:</script>
1 open p:f r -
1 unlink p:f
1 close 1
";

/// What the page has of its runs.
fn data_of(alloc: Global, page: &str) -> Result<Value, Fail> {
    let (_, behind) = page.split_once("id=\"runs\">").ok_or("no data")?;
    let (data, _) = behind.split_once("</script>").ok_or("no end of the data")?;
    Value::from_str(alloc, data).map_err(|_| Fail::from("data that isn't JSON"))
}

#[test]
fn each_call_is_shown_with_what_it_changed(rt: HostRuntime) -> Result<(), Fail> {
    let alloc: Global = rt.alloc();
    let page = Run::of(alloc, SCRIPT)?.page(alloc)?;
    let data = data_of(alloc, page.as_str())?;
    for (place, wanted) in [
        ("/0/start/1/kind", "\"object\""),
        ("/0/calls/0/word", "\"socket\""),
        ("/0/calls/1/rows/0/target/name", "\"a:</script>\""),
        ("/0/calls/3/gone", "[\"path p:f\"]"),
        ("/0/calls/4/gone", "[\"description 1\",\"object 0\"]"),
        ("/0/calls/5/gone", "[\"process 1\",\"description 0\"]"),
    ] {
        let found = data
            .pointer(place)
            .ok_or("no such place")?
            .to_string(alloc)?;
        assert!(rt; found.as_str() == wanted, "{place}: {found}");
    }
    assert!(rt; data.pointer("/0/calls/6").is_none());
    Ok(())
}

#[test]
fn names_are_text_of_the_page(rt: HostRuntime) -> Result<(), Fail> {
    let alloc: Global = rt.alloc();
    let page = Run::of(alloc, SCRIPT)?.page(alloc)?;
    assert!(rt; page.contains("bind(0, a:&lt;/script&gt;) = ok</li>"));
    assert!(rt; page.matches("<script").count() == 3 && page.matches("</script").count() == 3);
    Ok(())
}
