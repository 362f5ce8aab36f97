use crate::{Line, Told};
use message::{Event, Kind, MessageFault};
use std::test::Fail;

// An event is told as one of any kind, whatever its numbers.
#[test]
fn any_event_is_told(rt: HostRuntime) -> Result<(), Fail> {
    let event = Event {
        kind: 8,
        thread: 255,
        address: 65535,
        width: 200,
        value: 255,
    };
    let stored = Told {
        kind: Kind::Store,
        event,
    };
    let words = format!(in rt.alloc(); "{stored}")?;
    assert_eq!(rt;
        words.as_str(),
        "thread 255 stores 255 (0xff), width 200, at address 65535 (line 1023)"
    );
    let loaded = Told {
        kind: Kind::Load,
        event: Event {
            kind: 0,
            thread: 4,
            address: 64,
            width: 0,
            value: 0,
        },
    };
    let words = format!(in rt.alloc(); "{loaded}")?;
    assert_eq!(rt;
        words.as_str(),
        "thread 4 loads 0 (0x0), width 0, at address 64 (line 1)"
    );
    let line = Line {
        ordinal: 7,
        said: Ok::<Told, MessageFault>(loaded),
    };
    let words = format!(in rt.alloc(); "{line}")?;
    assert_eq!(rt;
        words.as_str(),
        "7: thread 4 loads 0 (0x0), width 0, at address 64 (line 1)"
    );
    let refused = Line {
        ordinal: 8,
        said: Err::<Told, MessageFault>(MessageFault::Length),
    };
    let words = format!(in rt.alloc(); "{refused}")?;
    assert_eq!(rt;
        words.as_str(),
        "8: refused, since it is not 16 bytes long: fault 1 of layer 1 (message) at byte 0"
    );
    Ok(())
}
