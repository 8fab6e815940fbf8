//! Lists of pairs, in pages that lists share.
ghost use Rattle.std.specs.Prelude.{◌≡◌, ◌++◌, ◌∷◌, [], ◌<◌, ◌≤◌, Some, length, slice_get, All, IfOk, OnOk, OnErr, ◌↔◌, IsTrue, take, map};
ghost use Rattle.std.specs.List.{flat_map};

use crate::SharedPair;
use sqlite_items::Items;
use std::alloc::{AllocError, Global};
use std::marker::Model;
use std::sync::Arc;

/// How many pairs a full page has.
const PAGE: usize = 32;

/// How many pairs a list may have, so that their number fits `u32`.
const MOST: usize = 0xFFFF_FFFF;

/// A pair that a worker added.
#[derive(Debug, Drop)]
pub struct Added {
    pub worker: u32,
    /// The sample's index.
    pub index: u32,
    pub pair: SharedPair,
}

impl Added {
    /// The same pair again.
    fn again(&self) -> Result<Added, AllocError>
        ensures { IfOk result (λ added. added ≡ self.now) }
    {
        let pair = self.pair.again()?;
        Ok(Added {
            worker: self.worker,
            index: self.index,
            pair,
        })
    }
}

/// The same pairs again.
fn again(alloc: Global, pairs: &[Added]) -> Result<Items<Added>, AllocError>
    ensures { IfOk result (λ made. made ≡ pairs.now) }
{
    let mut made = Items::new(alloc);
    for added in pairs {
        made.push(added.again()?)?;
    }
    Ok(made)
}

/// A page, which several lists hold. Contracts see its pairs.
#[derive(Debug, Drop)]
struct Page {
    pairs: Arc<Items<Added>>,
}

impl Model for Page {
    ghost use Rattle.std.specs.Prelude.{List};
    ghost use Rattle.std.specs.Arc.{arc_value};
    ghost use Rattle.pool_core.specs.declared.pages.Added.{Added};

    ghost Value = { List Added };

    ghost view = { λ p. arc_value p.pairs };
}

impl Page {
    /// The first holder of the pairs.
    fn new(alloc: Global, pairs: Items<Added>) -> Result<Page, AllocError>
        ensures { IfOk result (λ page. page ≡ pairs) }
    {
        Ok(Page {
            pairs: Arc::new(alloc, pairs)?,
        })
    }

    /// The pair at this place.
    fn pair(&self, at: usize) -> &Added
        requires { at < length self.now }
        ensures { slice_get self.now at ≡ Some result.now }
    {
        &self.pairs.as_slice()[at]
    }

    /// Another holder of the same pairs.
    fn again(&self) -> Result<Page, AllocError>
        ensures { IfOk result (λ page. page ≡ self.now) }
    {
        Ok(Page {
            pairs: Arc::try_clone(&self.pairs)?,
        })
    }
}

/// The same pages again.
fn pages_again(alloc: Global, pages: &[Page]) -> Result<Items<Page>, AllocError>
    ensures { IfOk result (λ made. made ≡ pages.now) }
{
    let mut made = Items::new(alloc);
    for page in pages {
        made.push(page.again()?)?;
    }
    Ok(made)
}

/// Makes room in the last page: a full one becomes one of the full pages. Its pairs are copied, so
/// that an error leaves all as it was.
fn make_room(
    alloc: Global,
    full: &mut Items<Page>,
    last: &mut Items<Added>,
) -> Result<(), AllocError>
    requires full { All (λ page. length page ≡ 32) full.old }
    requires few { length last.old ≤ 32 }
    ensures same { flat_map (λ page. page) full.new ++ last.new
        ≡ flat_map (λ page. page) full.old ++ last.old }
    ensures full { All (λ page. length page ≡ 32) full.new }
    ensures few { length last.new ≤ 32 }
    ensures room { OnOk result (length last.new < 32) }
{
    if last.len() < PAGE {
        return Ok(());
    }
    let page = Page::new(alloc, again(alloc, last.as_slice())?)?;
    full.push(page)?;
    *last = Items::new(alloc);
    Ok(())
}

/// Pairs in the order in which they were added: full pages, and a last one that is not shared.
/// Contracts see the pairs.
#[derive(Debug, Drop)]
pub(crate) struct Pages {
    full: Items<Page>,
    last: Items<Added>,
}

impl Model for Pages {
    ghost use Rattle.std.specs.Prelude.{◌≡◌, ◌++◌, ◌≤◌, List, length, All};
    ghost use Rattle.std.specs.List.{flat_map};
    ghost use Rattle.pool_core.specs.declared.pages.Added.{Added};

    ghost Value = { List Added };

    ghost view = { λ p. flat_map (λ page. page) p.full ++ p.last };

    ghost invariant = { λ p. All (λ page. length page ≡ 32) p.full
        × (length p.last ≤ 32)
        × (length (flat_map (λ page. page) p.full ++ p.last) ≤ 4294967295) };
}

impl Pages {
    /// No pair.
    pub(crate) fn new(alloc: Global) -> Pages
        ensures { result ≡ [] }
    {
        Pages {
            full: Items::new(alloc),
            last: Items::new(alloc),
        }
    }

    /// How many pairs there are.
    pub(crate) fn len(&self) -> usize
        ensures number { result ≡ length self.now }
        ensures few { result ≤ 4294967295 }
    {
        self.full.len() * PAGE + self.last.len()
    }

    /// The pair at this place.
    pub(crate) fn get(&self, at: usize) -> &Added
        requires { at < length self.now }
        ensures { slice_get self.now at ≡ Some result.now }
    {
        let page = at / PAGE;
        if page < self.full.len() {
            self.full.as_slice()[page].pair(at % PAGE)
        } else {
            &self.last.as_slice()[at - self.full.len() * PAGE]
        }
    }

    /// Adds a pair at the end. Room for more than `MOST` is refused as want of memory. An error
    /// leaves the list as it was.
    pub(crate) fn add(&mut self, alloc: Global, added: Added) -> Result<(), AllocError>
        ensures ok { OnOk result (self.new ≡ self.old ++ added ∷ []) }
        ensures err { OnErr result (self.new ≡ self.old) }
    {
        if self.len() == MOST {
            return Err(AllocError);
        }
        make_room(alloc, &mut self.full, &mut self.last)?;
        self.last.push(added)
    }

    /// The same pairs again: the full pages are shared, and the last one is copied.
    pub(crate) fn again(&self, alloc: Global) -> Result<Pages, AllocError>
        ensures { IfOk result (λ pages. pages ≡ self.now) }
    {
        let full = pages_again(alloc, self.full.as_slice())?;
        let last = again(alloc, self.last.as_slice())?;
        Ok(Pages { full, last })
    }

    /// Whether these are the first of the others, by their indexes.
    pub(crate) fn are_first_of(&self, others: &Pages) -> bool
        ensures { IsTrue result ↔ (map (λ added. added.index) self.now
            ≡ take (length (map (λ added. added.index) self.now))
            (map (λ added. added.index) others.now)) }
    {
        if self.len() > others.len() {
            return false;
        }
        for at in 0..self.len() {
            if self.get(at).index != others.get(at).index {
                return false;
            }
        }
        true
    }
}
