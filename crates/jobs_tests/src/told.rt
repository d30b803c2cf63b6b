//! Jobs and their results in words.
use fb_flatten::Net;
use fb_jobs::{Finished, Hint, Job, Value};
use fb_network::{Flat, FlatBlock, Link};
use std::alloc::{AllocError, Global};
use std::test::Fail;

fn say_hints(told: &mut String, hints: &[Hint]) -> Result<(), AllocError> {
    for hint in hints {
        write!(told, " {}", hint.unit)?;
    }
    Ok(())
}

fn say_blocks(told: &mut String, blocks: &[FlatBlock]) -> Result<(), AllocError> {
    for block in blocks {
        write!(told, " {}:{}", block.path.as_str(), block.type_name)?;
    }
    Ok(())
}

pub(crate) fn say_links(told: &mut String, links: &[Link]) -> Result<(), AllocError> {
    for link in links {
        write!(told, "; {} TO {}", link.from.as_str(), link.to.as_str())?;
    }
    Ok(())
}

fn say_flat(told: &mut String, alloc: Global, flat: &Flat) -> Result<(), AllocError> {
    say_blocks(told, &flat.plain_blocks(alloc)?)?;
    say_links(told, &flat.plain_links(alloc)?)?;
    write!(told, "; {} borders", flat.plain_borders(alloc)?.len())
}

fn say_net(told: &mut String, alloc: Global, net: &Net) -> Result<(), AllocError> {
    match net {
        Net::Flat(flat) => say_flat(told, alloc, flat),
        Net::Blocked(names) => write!(told, " blocked by {}", names.len()),
        Net::Recursive(names) => write!(told, " recursive by {}", names.len()),
        Net::TooLarge => told.push_str(" too large"),
    }
}

/// A net.
pub(crate) fn net_told(alloc: Global, net: &Net) -> Result<String, AllocError> {
    let mut told = String::new(alloc);
    say_net(&mut told, alloc, net)?;
    Ok(told)
}

fn say_value(told: &mut String, alloc: Global, value: &Value) -> Result<(), AllocError> {
    match value {
        Value::Faults(faults) => write!(told, " {} faults", faults.len()),
        Value::Net(net) => say_net(told, alloc, net),
        Value::Deploy(_) => told.push_str(" a plan"),
    }
}

/// What a job reads, and its hints.
pub(crate) fn job_told(alloc: Global, job: &Job) -> Result<String, AllocError> {
    let mut told = String::new(alloc);
    write!(told, "{} reads, taking", job.reads().len())?;
    say_hints(&mut told, job.hints())?;
    Ok(told)
}

/// What a result is, and the units whose nets were found on the way.
pub(crate) fn finished_told(alloc: Global, finished: &Finished) -> Result<String, AllocError> {
    let mut told = String::new(alloc);
    write!(told, "{} reads:", finished.reads().len())?;
    say_value(&mut told, alloc, finished.value())?;
    told.push_str("; finding")?;
    say_hints(&mut told, finished.found())?;
    Ok(told)
}

/// The same of a job that is run.
pub(crate) fn run_told(alloc: Global, job: &Job) -> Result<String, Fail> {
    let finished = job.run(alloc)?;
    Ok(finished_told(alloc, &finished)?)
}
