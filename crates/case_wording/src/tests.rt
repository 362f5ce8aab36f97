use crate::EntryName;
use std::test::Fail;

// An entry in words.
fn told(rt: &HostRuntime, name: EntryName) -> Result<String, Fail> {
    Ok(format!(in rt.alloc(); "{name}")?)
}

// An entry is told whatever its numbers.
#[test]
fn any_entry_is_told(rt: HostRuntime) -> Result<(), Fail> {
    let strong = told(&rt, EntryName::StrongFlush { line: 200 })?;
    assert_eq!(rt; strong.as_str(), "the strong flush of line 200");
    let weak = told(&rt, EntryName::WeakFlush { line: 255 })?;
    assert_eq!(rt; weak.as_str(), "the weak flush of line 255");
    let fence = told(&rt, EntryName::StoreFence)?;
    assert_eq!(rt; fence.as_str(), "the store fence");
    let zero = EntryName::Store {
        address: 65535,
        width: 200,
        value: [0; 8],
    };
    let store = told(&rt, zero)?;
    assert_eq!(rt;
        store.as_str(),
        "the store of 0 (0x0), width 200, at address 65535 (line 1023)"
    );
    let most = EntryName::Store {
        address: 65535,
        width: 200,
        value: [255; 8],
    };
    let store = told(&rt, most)?;
    assert_eq!(rt;
        store.as_str(),
        "the store of 18446744073709551615 (0xffffffffffffffff), width 200, at address 65535 (line 1023)"
    );
    Ok(())
}
