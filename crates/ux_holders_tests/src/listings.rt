//! The text of a snapshot, at chosen moments of two scripts.

use crate::moments::Run;
use std::process::Abort;
use std::test::Fail;

/// Process 1 opens a file and passes it to process 2 through a socket with a name.
pub(crate) const PASSING: &str = "\
object p:secret mem 6b6579
proc 1000 1000 0 16
proc 1000 1000 0 16
2 socket stream -
2 bind 0 a:worker
2 listen 0 4
1 socket stream -
1 connect 0 a:worker
2 accept 0 -
1 open p:secret r -
1 send 0 - 78 r:1 -
2 recv 1 1 24 -
";

/// The end that waits for accept is held by its place in the backlog alone.
const CONNECTED: &str = "\
process 1
  0 -> 1
process 2
  0 -> 0
description 0: 1 reference, stream socket a:worker, listening, 1 of 4 waiting
  held by number 0 of process 2
description 1: 1 reference, stream socket, connected to 2
  held by number 0 of process 1
description 2: 1 reference, stream socket a:worker, connected to 1
  held by place 0 in the backlog of description 0
object 0: mem, 3 bytes
path p:secret -> object 0
";

/// The file is held by a number and by the message.
const SENT: &str = "\
process 1
  0 -> 1
  1 -> 3
process 2
  0 -> 0
  1 -> 2
description 0: 1 reference, stream socket a:worker, listening, 0 of 4 waiting
  held by number 0 of process 2
description 1: 1 reference, stream socket, connected to 2
  held by number 0 of process 1
description 2: 1 reference, stream socket a:worker, connected to 1
  held by number 1 of process 2
  message 0: 1 byte of call 7, passes 3
description 3: 2 references, object 0, r, offset 0
  held by number 1 of process 1
  held by message 0 at description 2
object 0: mem, 3 bytes
path p:secret -> object 0
";

/// After the exits the file is left, for its path.
const EXITED: &str = "\
object 0: mem, 3 bytes
path p:secret -> object 0
";

/// One process with sockets of each type, flags of each kind, and names.
pub(crate) const FLAGS: &str = "\
object p:log mem -
object p:events counter
proc 1000 1000 0 8
1 open p:log w ax
1 write 0 6162
1 pair seq n
1 socket dgram -
1 bind 3 p:in%20box
1 socket dgram -
1 connect 4 p:in%20box
1 send 4 - 6869 - -
1 send 4 - - - -
1 setopt 3 passcred 1
1 shut 1 r
1 shut 2 w
1 unlink p:events
1 close 2
1 close 3
";

const FLAGGED: &str = "\
process 1
  0 -> 0 cloexec
  1 -> 1
  2 -> 2
  3 -> 3
  4 -> 4
description 0: 1 reference, object 0, w, offset 2, append
  held by number 0 of process 1
description 1: 1 reference, seq socket, connected to 2, shut for reading, nonblock
  held by number 1 of process 1
description 2: 1 reference, seq socket, connected to 1, shut for writing, nonblock
  held by number 2 of process 1
description 3: 1 reference, dgram socket p:in%20box, idle, passcred
  held by number 3 of process 1
  message 0: 2 bytes of call 7
  message 1: 0 bytes of call 8
description 4: 1 reference, dgram socket, associated with 3
  held by number 4 of process 1
object 0: mem, 2 bytes
path p:log -> object 0
path p:in%20box -> description 3
";

/// Whose peer is gone is reported, and a path to a socket that is gone.
const CLOSED: &str = "\
process 1
  0 -> 0 cloexec
  1 -> 1
  4 -> 4
description 0: 1 reference, object 0, w, offset 2, append
  held by number 0 of process 1
description 1: 1 reference, seq socket, connected to 2, gone, shut for reading, nonblock
  held by number 1 of process 1
description 4: 1 reference, dgram socket, associated with 3, gone
  held by number 4 of process 1
object 0: mem, 2 bytes
path p:log -> object 0
path p:in%20box -> description 3, gone
";

#[test]
fn each_thing_has_a_line(rt: HostRuntime) -> Result<(), Fail> {
    let alloc = rt.alloc();
    for (script, count, wanted) in [
        (PASSING, 5, CONNECTED),
        (PASSING, 8, SENT),
        (PASSING, 11, EXITED),
        (FLAGS, 13, FLAGGED),
        (FLAGS, 15, CLOSED),
    ] {
        let held = Run::of(alloc, script)?.after(alloc, count)?;
        let text = format!(in alloc; "{held}")?;
        assert!(rt; text.as_str() == wanted, "{text}");
    }
    Ok(())
}
