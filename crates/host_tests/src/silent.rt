//! Peers that are silent, or take no replies. A wait that ends may have been some milliseconds shorter than was asked for.
use crate::play::compare;
use std::test::Fail;

const CONVERSATIONS: &str = r#"
== Each of two sessions falls silent, which is printed, and then the seat is free / connections 2 / idle 100 / calls 2, 2 / errors session 1: idle\nsession 1: idle
0 asks {"op":"take"} => {"job":0}
0 is closed
passed 90
errors => session 1: idle
1 asks {"op":"take"} => {"job":0}
1 is closed
errors => session 1: idle\nsession 1: idle

== One peer says nothing, and one sends a byte now and then / connections 1 / first-line 200 / calls 1, 1 / errors bench61499: connections turned away: 2, for a wrong secret: 0
0 is closed
passed 190
1 drips
passed 380
2 asks {"op":"take"} => {"job":0}
2 leaves

== A byte that comes late does not give a peer more time for its first line / connections 1 / first-line 6000 / calls 1, 1 / errors bench61499: connections turned away: 1, for a wrong secret: 0
connect 1
wait 5000
0 says {
0 is closed
passed 5900
within 10000
1 asks {"op":"take"} => {"job":0}
1 leaves

== The times of the first line and of a reply are over once these have come, and a session may be silent for longer / connections 1 / first-line 3000 / reply 3000 / calls 2, 2
0 asks {"op":"take"} => {"job":0}
wait 3500
0 asks {"op":"take"} => {"job":0}
0 leaves
"#;

const REPLIES: &str = r#"
== A session asks and takes no replies, and its seat is free once a reply has waited too long / connections 2 / idle 2000 / calls any / errors session 1: write failed
0 errs 9000 => {"accepted":1}
0 floods {"op":"ask","kind":"faults","unit":"A"}
passed 1900
1 asks {"op":"take"} => {"job":0}
errors => session 1: write failed
1 leaves

== A session reads a byte of its replies now and then, and each has a second, however long a session may be silent / connections 2 / reply 1000 / calls any / errors session 1: write failed
0 errs 9000 => {"accepted":1}
0 sips {"op":"ask","kind":"faults","unit":"A"}
passed 900
1 asks {"op":"take"} => {"job":0}
errors => session 1: write failed
1 leaves
"#;

#[test]
fn a_reply_that_is_not_taken_ends_its_session(rt: HostRuntime) -> Result<(), Fail> {
    compare(&rt, rt.alloc(), REPLIES)
}

#[test]
fn a_silent_session_is_ended(rt: HostRuntime) -> Result<(), Fail> {
    compare(&rt, rt.alloc(), CONVERSATIONS)
}
