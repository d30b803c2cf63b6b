//! What keeps nobody out and holds nobody up: connections that say nothing, sessions that commit without end or take keys again and again, errors that nobody
//! reads, and a system that gives no connection.
use crate::play::compare;
use std::test::Fail;

const ENTRANCE: &str = r#"
== First lines are read of 32 at once, and who has waited longest gives way to the newest / first-lines 32 / connections 3 / sessions 3 / calls 4, 4 / errors bench61499: connections turned away: 32, for a wrong secret: 0
connect 32
32 asks {"op":"take"} => {"job":0}
0 is closed
// There is room for one more.
connect 1
34 asks {"op":"take"} => {"job":0}
1 is closed
2 asks {"op":"take"} => {"job":0}
// That was the last session, and the host closes the connections that still say nothing.
each 3 to 31 is closed
33 is closed
32 asks {"op":"take"} => {"job":0}
32 leaves
34 leaves
2 leaves

== A hundred peers that say nothing do not keep out the next one / first-lines 32 / secret sesame / connections 1 / calls 1, 1 / errors bench61499: connections turned away: 100, for a wrong secret: 0
each 0 to 99 is challenged
100 proves sesame => proved
100 asks {"op":"take"} => {"job":0}
each 0 to 99 is closed
100 leaves

== Peers that have sent a byte keep out nobody who still waits for the challenge / first-lines 32 / secret sesame / connections 1 / calls 1, 1 / errors bench61499: connections turned away: 33, for a wrong secret: 0
each 0 to 31 is challenged
each 0 to 31 says x
connect 1
33 is challenged
32 proves sesame => proved
32 asks {"op":"take"} => {"job":0}
each 0 to 31 is closed
33 is closed
32 leaves
"#;

// When the client comes, as many wait as may, and others come all the time: the host takes in so few of them at once that the client has time to answer.
const STORM: &str = r#"
== A client answers late, while another peer connects as fast as it can and says nothing / first-lines 128 / secret sesame / connections 1 / calls 1, 1 / errors any
connect 200
in a storm 200 proves sesame after 100 => proved
200 asks {"op":"take"} => {"job":0}
200 leaves
"#;

const GOING_ON: &str = r#"
== The errors are read by nobody, and each seat is free again / connections 4 / idle 20 / calls 4, 4 / errors session 1: idle\nsession 1: idle\nsession 1: idle\nsession 1: idle
errors are held
each 0 to 3 ends {"op":"take"} => {"job":0}
errors are free

== The system gives no connection, which is printed once, and the host goes on / connections 2 / failing yes / calls 2, 2 / errors bench61499: no connection is accepted: Resource temporarily unavailable (os error 11)
errors => bench61499: no connection is accepted: Resource temporarily unavailable (os error 11)
wait 400
0 asks {"op":"take"} => {"job":0}
0 leaves
wait 400
1 asks {"op":"take"} => {"job":0}
1 leaves
"#;

// In each conversation a worker needs a second or so for the structures that `uses` commits, and each type that `adds` commits makes these pending again. The
// last name must have its faults nevertheless.
const FLOODS: &str = r#"
== Four sessions commit at once / connections 6 / sessions 5 / workers 1 / units 1000 / history 100000 / calls any
0 uses 2
0 asks {"op":"commit","changes":[{"put":"ZZ","base":0,"text":"FUNCTION_BLOCK ZZ EVENT_INPUT E WITH X; END_EVENT END_FUNCTION_BLOCK"}]} => {"commit":3}
1 adds 10 from 0
2 adds 10 from 10
3 adds 10 from 20
4 adds 10 from 30
each 1 to 4 reads 10
wait 100
0 asks {"op":"ask","kind":"faults","unit":"ZZ"} => {"faults":[["WITH_UNKNOWN",37,38]]}
leave 0 to 4
5 asks {"op":"ask","kind":"faults","unit":"ZZ"} => {"faults":[["WITH_UNKNOWN",37,38]]}
5 leaves

== A new session comes for each eight commits, which reach 256 keys / connections 5 / sessions 2 / workers 1 / units 1000 / history 100000 / calls any
0 uses 2
0 asks {"op":"commit","changes":[{"put":"ZZ","base":0,"text":"FUNCTION_BLOCK ZZ EVENT_INPUT E WITH X; END_EVENT END_FUNCTION_BLOCK"}]} => {"commit":3}
1 adds 8 from 0
1 reads 8
1 leaves
2 adds 8 from 8
2 reads 8
2 leaves
3 adds 8 from 16
3 reads 8
3 leaves
wait 100
0 asks {"op":"ask","kind":"faults","unit":"ZZ"} => {"faults":[["WITH_UNKNOWN",37,38]]}
0 leaves
4 asks {"op":"ask","kind":"faults","unit":"ZZ"} => {"faults":[["WITH_UNKNOWN",37,38]]}
4 leaves

== Two sessions hold keys that are pending again / connections 4 / sessions 3 / workers 1 / units 1000 / history 100000 / calls any
0 uses 2
0 grabs 64
0 reads 64
0 adds 1 from 0
0 reads 1
1 grabs 64
1 reads 64
2 adds 1 from 1
2 reads 1
0 asks {"op":"commit","changes":[{"put":"ZZ","base":0,"text":"FUNCTION_BLOCK ZZ EVENT_INPUT E WITH X; END_EVENT END_FUNCTION_BLOCK"}]} => {"commit":5}
2 adds 12 from 2
2 reads 12
wait 100
0 asks {"op":"ask","kind":"faults","unit":"ZZ"} => {"faults":[["WITH_UNKNOWN",37,38]]}
leave 0 to 2
3 asks {"op":"ask","kind":"faults","unit":"ZZ"} => {"faults":[["WITH_UNKNOWN",37,38]]}
3 leaves
"#;

const GRABS: &str = r#"
== A session takes a key again that it has kept for too long / connections 3 / sessions 2 / key 1000 / workers 1 / units 1000 / history 100000 / calls any
0 uses 1
0 asks {"op":"commit","changes":[{"put":"A","base":0,"text":"FUNCTION_BLOCK A EVENT_INPUT E WITH X; END_EVENT END_FUNCTION_BLOCK"}]} => {"commit":2}
0 grabs 1
0 reads 1
wait 980
0 grabs 20000
wait 300
1 asks {"op":"ask","kind":"faults","unit":"A"} => {"faults":[["WITH_UNKNOWN",36,37]]}
0 reads 20000
leave 0 to 1
2 asks {"op":"ask","kind":"faults","unit":"A"} => {"faults":[["WITH_UNKNOWN",36,37]]}
2 leaves

== A session gives a key back and takes it again / connections 3 / sessions 2 / workers 1 / units 1000 / history 100000 / calls any
0 uses 1
0 asks {"op":"commit","changes":[{"put":"ZZ","base":0,"text":"FUNCTION_BLOCK ZZ EVENT_INPUT E WITH X; END_EVENT END_FUNCTION_BLOCK"}]} => {"commit":2}
0 grabs 17
0 reads 17
0 regrabs ZZ 20
wait 500
1 asks {"op":"ask","kind":"faults","unit":"ZZ"} => {"faults":[["WITH_UNKNOWN",37,38]]}
leave 0 to 1
2 asks {"op":"ask","kind":"faults","unit":"ZZ"} => {"faults":[["WITH_UNKNOWN",37,38]]}
2 leaves
"#;

#[test]
fn who_commits_without_end_waits_for_the_workers(rt: HostRuntime) -> Result<(), Fail> {
    compare(&rt, rt.alloc(), FLOODS)
}

#[test]
fn a_key_that_is_let_go_is_the_workers_first(rt: HostRuntime) -> Result<(), Fail> {
    compare(&rt, rt.alloc(), GRABS)
}

#[test]
fn nobody_shuts_the_entrance(rt: HostRuntime) -> Result<(), Fail> {
    compare(&rt, rt.alloc(), ENTRANCE)
}

#[test]
fn a_storm_leaves_time_to_answer(rt: HostRuntime) -> Result<(), Fail> {
    compare(&rt, rt.alloc(), STORM)
}

#[test]
fn a_host_goes_on(rt: HostRuntime) -> Result<(), Fail> {
    compare(&rt, rt.alloc(), GOING_ON)
}
