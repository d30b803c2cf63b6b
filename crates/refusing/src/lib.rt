//! What crates of tests share: calls of which each allocation is refused in turn, and tables of rows.
//!
//! `tools/refuse` preloads the library that refuses them: there a request of a size that nobody can have shows which allocation of this
//! thread is refused. In a run without it none is refused, and each call is made once, with ample memory.
#![tactic(auto)]

mod tables;

use std::alloc::Global;
use std::io;
use std::io::Print;
use std::test::Fail;
pub use tables::{lines_of, row_in};

/// A size that nobody can have.
const NOBODY: usize = 1 << 62;

/// A size that nobody asks for: it is given if no allocation was refused since the last request that nobody can have.
const QUESTION: usize = 61_499_001;

/// No call that is tried makes this number of allocations.
const MOST: u32 = 100_000;

/// Lets the allocation of this number from here on be refused, counted from 1; none if it is 0.
pub fn refuse(alloc: Global, number: u32) {
    let _ = Vec::<u8>::with_capacity(alloc, NOBODY + number as usize);
}

/// Whether it was refused meanwhile. From here on none is refused.
pub fn was_refused(alloc: Global) -> bool {
    let is_refused = Vec::<u8>::with_capacity(alloc, QUESTION).is_err();
    refuse(alloc, 0);
    is_refused
}

/// A call with all that it is made on.
pub trait Trial: Drop {
    /// Which call it is, if there are several, and what is lent to it.
    type Setting: Copy;

    /// What the call is made on, made new.
    fn new(alloc: Global, setting: Self::Setting) -> Result<Self, Fail>;

    /// Makes the call, and keeps its answer. Whether it found the memory that it needs.
    fn call(&mut self, alloc: Global) -> bool;

    /// In words, all that can be read of what the call was made on, and of its answer if there is one.
    fn told(&self, alloc: Global) -> Result<String, Fail>;
}

/// How many allocations a call makes, and how many of them it doesn't do without.
#[derive(Clone, Copy, Debug, Drop, PartialEq, Eq)]
pub struct Refusals {
    pub allocations: u32,
    pub memory: u32,
}

/// What can be read after the call with ample memory.
fn ample<T: Trial>(alloc: Global, setting: T::Setting) -> Result<String, Fail> {
    let mut trial = T::new(alloc, setting)?;
    if !trial.call(alloc) {
        return Err(Fail::from("no memory, though none was refused"));
    }
    trial.told(alloc)
}

/// Makes the call again after it found no memory, which has changed nothing.
fn again<T: Trial>(alloc: Global, trial: &mut T, before: &str) -> Result<(), Fail> {
    if trial.told(alloc)?.as_str() != before {
        return Err(Fail::from("want of memory has changed something"));
    }
    if !trial.call(alloc) {
        return Err(Fail::from("no memory, though none was refused any more"));
    }
    Ok(())
}

/// Whether the allocation of this number was refused, and whether the call then found no memory.
fn refused<T: Trial>(
    alloc: Global,
    setting: T::Setting,
    number: u32,
    wanted: &str,
) -> Result<(bool, bool), Fail> {
    let mut trial = T::new(alloc, setting)?;
    let before = trial.told(alloc)?;
    refuse(alloc, number);
    let is_served = trial.call(alloc);
    let is_refused = was_refused(alloc);
    if !is_served {
        again(alloc, &mut trial, before.as_str())?;
    }
    if trial.told(alloc)?.as_str() != wanted {
        return Err(Fail::from("another answer"));
    }
    Ok((is_refused, !is_served))
}

/// Makes an attempt with each allocation refused in turn, until none is refused. It gives whether one was refused, and whether it ended for
/// lack of memory.
pub fn each_refused<F: Fn(u32) -> Result<(bool, bool), Fail>>(attempt: F) -> Result<Refusals, Fail>
    requires { F.IsAlwaysCallable attempt }
{
    let mut memory = 0u32;
    for number in 1..MOST {
        let (is_refused, is_memory) = attempt(number)?;
        if is_memory && !is_refused {
            return Err(Fail::from("no memory, though none was refused"));
        }
        if !is_refused {
            return Ok(Refusals {
                allocations: number - 1,
                memory,
            });
        }
        memory = memory.saturating_add(u32::from(is_memory));
    }
    Err(Fail::from("a call that makes ever more allocations"))
}

/// Prints what was found of a call, which is made so. Without `tools/refuse` no allocation is refused, and nothing is shown of the call.
pub fn report(rt: &impl Print, call: &str, way: &str, found: Refusals) -> io::Result<()> {
    let Refusals {
        allocations,
        memory,
    } = found;
    if allocations == 0 {
        return println!(rt;
            "not tried: {call}{way}: no allocation was refused, as this run is not made by tools/refuse"
        );
    }
    println!(rt; "refused: {call}{way}: {allocations} allocations, {memory} times no memory")
}

/// Refuses each allocation of a call in turn, and prints what was found. Each time the call finds no memory, and then has changed nothing and
/// can be made again, or it answers as it does with ample memory.
pub fn try_call<T: Trial>(
    rt: &impl Print,
    alloc: Global,
    call: &str,
    way: &str,
    setting: T::Setting,
) -> Result<(), Fail> {
    let wanted = ample::<T>(alloc, setting)?;
    let found = each_refused(|number| refused::<T>(alloc, setting, number, wanted.as_str()))?;
    report(rt, call, way, found)?;
    Ok(())
}
