//! Lines that are no request or that are refused, by their form, by the limits or by the state of the workbench.
use crate::conversation::compare;
use std::alloc::{AllocError, Global};
use std::test::Fail;

const CONVERSATIONS: &str = r#"
== no lines

== Typing errors, and what is refused for another reason
ask faults A => {"refused":"BadRequest"}
{"op":"ask","kind":"faults","unit":"A" => {"refused":"BadRequest"}
{"op":"ask","kind":"faults","unit":"A"}, => {"refused":"BadRequest"}
{'op':'ask','kind':'faults','unit':'A'} => {"refused":"BadRequest"}
{"op":"aks","kind":"faults","unit":"A"} => {"refused":"BadRequest"}
{"op":"ask","kind":"Faults","unit":"A"} => {"refused":"BadRequest"}
{"op":"ask","kind":"faults","units":"A"} => {"refused":"BadRequest"}
{"op":"work"} => {"refused":"BadRequest"}
{"op":"work","turns":"5"} => {"refused":"BadRequest"}
{"op":"work","turns":5.0} => {"refused":"BadRequest"}
{"op":"work","turns":1001} => {"refused":"BadRequest"}
{"op":"commit","changes":{"put":"A","base":0,"text":""}} => {"refused":"BadRequest"}
{"op":"ask","kind":"faults","unit":"A B"} => {"refused":"BadName"}
{"op":"deliver","job":0} => {"refused":"NoSuchJob"}
// What is not asked for is passed over.
{"why":"?","unit":"A","kind":"faults","op":"ask"} => {"refused":"NoSuchKey"}

== A value of 100 nested lists is read, one of 200 is not
{"op":"take","x":[[[[[[[[[[[[[[[[[[[[[[[[[[[[[[[[[[[[[[[[[[[[[[[[[[[[[[[[[[[[[[[[[[[[[[[[[[[[[[[[[[[[[[[[[[[[[[[[[[[[]]]]]]]]]]]]]]]]]]]]]]]]]]]]]]]]]]]]]]]]]]]]]]]]]]]]]]]]]]]]]]]]]]]]]]]]]]]]]]]]]]]]]]]]]]]]]]]]]]]]} => {"job":0}
{"op":"take","x":[[[[[[[[[[[[[[[[[[[[[[[[[[[[[[[[[[[[[[[[[[[[[[[[[[[[[[[[[[[[[[[[[[[[[[[[[[[[[[[[[[[[[[[[[[[[[[[[[[[[[[[[[[[[[[[[[[[[[[[[[[[[[[[[[[[[[[[[[[[[[[[[[[[[[[[[[[[[[[[[[[[[[[[[[[[[[[[[[[[[[[[[[[[[[[[[[[[[[[[[]]]]]]]]]]]]]]]]]]]]]]]]]]]]]]]]]]]]]]]]]]]]]]]]]]]]]]]]]]]]]]]]]]]]]]]]]]]]]]]]]]]]]]]]]]]]]]]]]]]]]]]]]]]]]]]]]]]]]]]]]]]]]]]]]]]]]]]]]]]]]]]]]]]]]]]]]]]]]]]]]]]]]]]]]]]]]]]]]]]]]]]]]]]]]]]]]]]]]]]]} => {"refused":"BadRequest"}

== A change with both or none of `put` and `remove`, also where one is null, and what comes first of two refusals
{"op":"commit","changes":[{"base":0,"text":""}]} => {"refused":"BadRequest"}
{"op":"commit","changes":[{"put":"A","base":0,"text":"","remove":null}]} => {"refused":"BadRequest"}
{"op":"commit","changes":[{"remove":"A","put":null,"base":0}]} => {"refused":"BadRequest"}
{"op":"commit","changes":[{"remove":"9","base":0},{"remove":"A","base":-1}]} => {"refused":"BadRequest"}
{"op":"commit","changes":[{"remove":"A","base":0},{"remove":"","base":0}]} => {"refused":"BadName"}
{"op":"commit","changes":[{"remove":"a","base":7}]} => {"refused":"NoSuchUnit","unit":"A"}
{"op":"ask","kind":"fault","unit":"9"} => {"refused":"BadRequest"}
{"op":"ask","kind":"net","unit":"9"} => {"refused":"BadName"}
{"op":"ask","kind":"deploy","unit":"A"} => {"refused":"NoSuchKey"}

== A commit of three changes of which the last is refused
{"op":"commit","changes":[{"put":"A","base":0,"text":"FUNCTION_BLOCK A END_FUNCTION_BLOCK"}]} => {"commit":1}
{"op":"commit","changes":[{"put":"B","base":0,"text":"FUNCTION_BLOCK B END_FUNCTION_BLOCK"},{"put":"C","base":0,"text":"FUNCTION_BLOCK C FBS S:E_SPLIT; END_FBS END_FUNCTION_BLOCK"},{"put":"A","base":7,"text":"FUNCTION_BLOCK A END_FUNCTION_BLOCK"}]} => {"current":1,"refused":"StaleBase","unit":"A"}
{"op":"ask","kind":"faults","unit":"B"} => {"refused":"NoSuchKey"}
{"op":"ask","kind":"faults","unit":"A"} => {"answer":"pending"}

== refused lines / 1024 / 5
[] => {"refused":"BadRequest"}
{"op":"work","turns":0} => {"refused":"BadRequest"}
{"op":"commit","changes":[{"put":"9A","base":0,"text":"FUNCTION_BLOCK A END_FUNCTION_BLOCK"}]} => {"refused":"BadName"}
{"op":"deliver","job":9} => {"refused":"NoSuchJob"}
{"op":"commit","changes":[]} => {"refused":"NoChange"}
{"op":"commit","changes":[{"remove":"A","base":0},{"remove":"A","base":0},{"remove":"A","base":0},{"remove":"A","base":0},{"remove":"A","base":0},{"remove":"A","base":0},{"remove":"A","base":0},{"remove":"A","base":0},{"remove":"A","base":0},{"remove":"A","base":0},{"remove":"A","base":0},{"remove":"A","base":0},{"remove":"A","base":0},{"remove":"A","base":0},{"remove":"A","base":0},{"remove":"A","base":0},{"remove":"A","base":0}]} => {"refused":"TooManyChanges"}
{"op":"commit","changes":[{"put":"a","base":0,"text":"FUNCTION_BLOCK A END_FUNCTION_BLOCK"},{"put":"A","base":0,"text":"FUNCTION_BLOCK A END_FUNCTION_BLOCK"}]} => {"refused":"SameUnitTwice","unit":"A"}
{"op":"take"} => {"job":0}
{"op":"give_back","kind":"faults","unit":"A"} => {"returned":false}
{"op":"take"} => {"refused":"HistoryFull"}

== a full history / 1024 / 3
{"op":"ask","kind":"faults","unit":"A"} => {"refused":"NoSuchKey"}
{"op":"ask","kind":"faults","unit":"A"} => {"refused":"NoSuchKey"}
{"op":"ask","kind":"faults","unit":"A"} => {"refused":"NoSuchKey"}
{"op":"ask","kind":"faults","unit":"A"} => {"refused":"HistoryFull"}
{"op":"work","turns":1} => {"accepted":0,"refused":"HistoryFull"}

== As many units as the words allow / 1 / 100000
{"op":"commit","changes":[{"put":"A","base":0,"text":"FUNCTION_BLOCK A END_FUNCTION_BLOCK"}]} => {"commit":1}
{"op":"commit","changes":[{"put":"B","base":0,"text":"FUNCTION_BLOCK B END_FUNCTION_BLOCK"}]} => {"refused":"TooManyUnits"}
{"op":"commit","changes":[{"put":"B","base":0,"text":"FUNCTION_BLOCK B END_FUNCTION_BLOCK"},{"remove":"A","base":1}]} => {"commit":2}
"#;

#[test]
fn conversations(rt: HostRuntime) -> Result<(), Fail> {
    compare(&rt, rt.alloc(), CONVERSATIONS)
}

// A text of the greatest length, and one of a byte more.
#[test]
fn long_texts(rt: HostRuntime) -> Result<(), Fail> {
    let spaces = " ".repeat(rt.alloc(), 65_536)?;
    let text = format!(in rt.alloc();
        r#"
== long texts
{{"op":"commit","changes":[{{"put":"A","base":0,"text":"{0}"}}]}} => {{"commit":1}}
{{"op":"work","turns":1}} => {{"accepted":1}}
{{"op":"ask","kind":"faults","unit":"A"}} => {{"faults":[["SYNTAX",65536,65536]]}}
{{"op":"commit","changes":[{{"put":"A","base":1,"text":"{0} "}},{{"remove":"9","base":0}}]}} => {{"refused":"TextTooLong"}}
"#,
        spaces
    )?;
    compare(&rt, rt.alloc(), text.as_str())
}

// A conversation in which 64 jobs are taken and given back, and then one more is asked for.
fn jobs(alloc: Global) -> Result<String, AllocError> {
    let mut text = String::from_str(
        alloc,
        r#"
== too many jobs / 1024 / 129
{"op":"commit","changes":[{"put":"A","base":0,"text":"FUNCTION_BLOCK A END_FUNCTION_BLOCK"}]} => {"commit":1}
"#,
    )?;
    for job in 1..65u32 {
        write!(
            text,
            r#"
{{"op":"take"}} => {{"job":{job},"kind":"faults","unit":"A"}}
{{"op":"give_back","kind":"faults","unit":"A"}} => {{"returned":true}}
"#
        )?;
    }
    text.push_str(
        r#"
{"op":"take"} => {"refused":"TooManyJobs"}
{"op":"ask","kind":"faults","unit":"B"} => {"refused":"HistoryFull"}
"#,
    )?;
    Ok(text)
}

// A run holds at most 64 jobs. With 129 records of them the history is full.
#[test]
fn too_many_jobs(rt: HostRuntime) -> Result<(), Fail> {
    compare(&rt, rt.alloc(), jobs(rt.alloc())?.as_str())
}
