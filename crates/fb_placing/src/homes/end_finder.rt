//! The homes of the ends of links. Those of links beside each other are often in one block.
//! If no block is inside another one, which a plan finds out once, an end has the home of its block: a net gives a path in two parts, and the second begins
//! with the block's name, or the first ends with it and a plug or socket. Otherwise, and if that block has no home, each prefix is looked up, the longest first.
ghost use Rattle.std.specs.Prelude.{◌≡◌, ◌++◌, ℕ, IfOk, IfSome, IsTrue, List, None, option_copied};
ghost use Rattle.fb_network.specs.Prefixes.{nearest};
ghost use Rattle.fb_placing.specs.{Points.{IsInside}, HomeTable.{home_by_path}, Found.{IsFound, IsHome}};

use crate::homes::table::{HomeTable, home_by_path, nearest_home};
use crate::paths::split::split_last;
use crate::plan::text_parts::write_both;
use fb_network::Path;
use std::alloc::{AllocError, Global};
use std::mem::swap;

/// The path of a block and its home, if it has one.
#[derive(Drop)]
pub(crate) struct FoundBlock<'a> {
    path: String,
    home: Option<&'a Path>,
}

/// Finds the homes of the ends of links. It keeps the two blocks in which ends were found last, and room for the text of a path.
#[derive(Drop)]
pub(crate) struct EndFinder<'a, 't> {
    pub homes: &'t HomeTable<'a>,
    recent: FoundBlock<'a>,
    earlier: FoundBlock<'a>,
    text: String,
    ghost known: { IsFound homes.now.by_path recent × IsFound homes.now.by_path earlier },
}

/// What a text has after its beginning.
fn after<'t>(text: &'t [u8], beginning: &[u8]) -> Option<&'t [u8]>
    ensures { IfSome result (λ rest. text.now ≡ beginning.now ++ rest.now) }
{
    text.strip_prefix(beginning)
}

/// What a path, of which these are the bytes of the two parts, has after those of a block, or the beginning of that.
fn rest_after<'p>(start: &'p [u8], end: &'p [u8], block: &[u8]) -> Option<&'p [u8]>
    ensures { IfSome result (λ rest. (more : List ℕ)
        × (start.now ++ end.now ≡ block.now ++ (rest.now ++ more))) }
{
    match after(block, start) {
        Some(name) => after(end, name),
        None => after(start, block),
    }
}

/// Whether a path, of which these are the two parts, is in a block.
fn stands_in(start: &str, end: &str, block: &str) -> bool
    ensures { IsTrue result → IsInside (start.now ++ end.now) block.now }
{
    match rest_after(start.as_bytes(), end.as_bytes(), block.as_bytes()) {
        Some([first, ..]) => *first == b'.',
        _ => false,
    }
}

/// The path of the block in which an end is, in two parts: an end is a port of a block, or of one of its plugs and sockets, whose ports have a first part of
/// their own.
fn block_of<'p>(start: &'p str, end: &'p str) -> Option<(&'p str, &'p str)>
    ensures { IfSome result (λ parts. IsInside (start.now ++ end.now) (parts.0.now ++ parts.1.now)) }
{
    if let Some((name, _)) = end.split_once('.') {
        return Some((start, name));
    }
    let (outer, _) = split_last(start)?;
    let (block, _) = split_last(outer)?;
    Some((block, ""))
}

impl<'a> FoundBlock<'a> {
    /// No block.
    fn new(alloc: Global) -> FoundBlock<'a>
        ensures { result.home ≡ None }
    {
        FoundBlock {
            path: String::new(alloc),
            home: None,
        }
    }

    /// The home of an end, whose path has two parts, if it is in the block.
    fn home_of(&self, homes: &HomeTable<'a>, start: &str, end: &str) -> Option<&'a Path>
        requires apart { IsTrue homes.now.apart }
        requires found { IsFound homes.now.by_path self.now }
        ensures { IfSome result (λ home. IsHome homes.now.by_path start.now end.now home.now) }
    {
        let home = self.home?;
        if stands_in(start, end, self.path.as_str()) {
            return Some(home);
        }
        None
    }

    /// Looks up the block in which an end is, and gives its home.
    fn look_up(
        &mut self,
        homes: &HomeTable<'a>,
        start: &str,
        end: &str,
    ) -> Result<Option<&'a Path>, AllocError>
        requires apart { IsTrue homes.now.apart }
        requires found { IsFound homes.now.by_path self.old }
        ensures found { IsFound homes.now.by_path self.new }
        ensures home { IfOk result
            (λ home. IfSome home (λ home. IsHome homes.now.by_path start.now end.now home.now)) }
    {
        let Some((outer, name)) = block_of(start, end) else {
            return Ok(None);
        };
        self.home = None;
        write_both(&mut self.path, outer, name)?;
        self.home = home_by_path(&homes.by_path, self.path.as_str());
        Ok(self.home)
    }
}

impl<'a, 't> EndFinder<'a, 't> {
    /// No end was found yet.
    pub(crate) fn new(alloc: Global, homes: &'t HomeTable<'a>) -> EndFinder<'a, 't>
        ensures { result.homes.now ≡ homes.now }
    {
        EndFinder {
            homes,
            recent: FoundBlock::new(alloc),
            earlier: FoundBlock::new(alloc),
            text: String::new(alloc),
        }
    }

    /// The home of the block in which an end is, if it has one.
    fn home_of_block(&mut self, start: &str, end: &str) -> Result<Option<&'a Path>, AllocError>
        requires { IsTrue self.old.homes.now.apart }
        ensures homes { self.new.homes.now ≡ self.old.homes.now }
        ensures home { IfOk result (λ home.
            IfSome home (λ home. IsHome self.old.homes.now.by_path start.now end.now home.now)) }
    {
        if let Some(home) = self.recent.home_of(self.homes, start, end) {
            return Ok(Some(home));
        }
        swap(&mut self.recent, &mut self.earlier);
        if let Some(home) = self.recent.home_of(self.homes, start, end) {
            return Ok(Some(home));
        }
        self.recent.look_up(self.homes, start, end)
    }

    /// The home of an end, whose path has two parts.
    pub(crate) fn home(&mut self, start: &str, end: &str) -> Result<Option<&'a Path>, AllocError>
        ensures homes { self.new.homes.now ≡ self.old.homes.now }
        ensures found { IfOk result (λ home. option_copied home
            ≡ nearest (home_by_path self.old.homes.now.by_path) (start.now ++ end.now)) }
    {
        if self.homes.apart {
            if let Some(home) = self.home_of_block(start, end)? {
                return Ok(Some(home));
            }
        }
        write_both(&mut self.text, start, end)?;
        Ok(nearest_home(&self.homes.by_path, self.text.as_str()))
    }
}
