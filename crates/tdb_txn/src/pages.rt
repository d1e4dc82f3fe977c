//! The pages of a transaction by number, and a stock of pages for those to come.
ghost use Rattle.std.specs.Prelude.{◌≡◌, ◌≢◌, ◌+◌, ◌≤◌, ◌<◌, ◌⊎◌, ℕ, List, [], Some, None, IfSome, IfNone, IfOk, OnOk, IsOk, IsSome, IsTrue, IsFalse, get_or, max, length, take, drop, vec_capacity};
ghost use Rattle.tdb_txn.specs.Pages.{Rising, page_at, page_size, PutIn, Added, HasPage};

use crate::page::{PAGE_SIZE, Page};
use std::alloc::{AllocError, Global};

/// The pages that a transaction has, and a stock of others: while it lasts, a page is added without asking for memory.
#[derive(Drop)]
pub struct Pages {
    list: Vec<Page>,
    stock: Vec<Page>,
    ghost rising: { Rising list.items },
    ghost room: { length stock.items + length list.items ≤ vec_capacity list },
}

impl Pages {
    ghost use Rattle.tdb_txn.specs.Stock.{page_list, pages_left, HasSlot};

    /// No pages. It takes no memory.
    pub(crate) fn new(alloc: Global) -> Pages
        ensures none { page_list result ≡ [] }
        ensures left { pages_left result ≡ 0 }
    {
        Pages {
            list: Vec::new(alloc),
            stock: Vec::new(alloc),
        }
    }

    /// How many pages there are.
    pub(crate) fn count(&self) -> usize
        ensures { result ≡ length (page_list self.now) }
    {
        self.list.len()
    }

    /// How many pages have a smaller number.
    pub(crate) fn position(&self, number: u64) -> usize
        ensures within { result ≤ length (page_list self.now) }
        ensures before { (i : ℕ) (d : Page) → i < result → (get_or (page_list self.now) i d).number < number }
        ensures behind { (i : ℕ) (d : Page) → result ≤ i → i < length (page_list self.now) → number ≤ (get_or (page_list self.now) i d).number }
    {
        let mut low = 0;
        let mut high = self.list.len();
        while low < high {
            let middle = low + (high - low) / 2;
            if self.list[middle].number < number {
                low = middle + 1;
            } else {
                high = middle;
            }
        }
        low
    }

    /// Where the page with this number stands in the list.
    fn find(&self, number: u64) -> Option<usize>
        ensures inside { IfSome result (λ i. i < length (page_list self.now)) }
        ensures there { IfSome result (λ i. (d : Page) → (get_or (page_list self.now) i d).number ≡ number) }
        ensures first { IfSome result (λ i. (d : Page) → page_at (page_list self.now) number ≡ Some (get_or (page_list self.now) i d).bytes.items) }
        ensures none { IfNone result (page_at (page_list self.now) number ≡ None) }
    {
        let at = self.position(number);
        if at < self.list.len() && self.list[at].number == number {
            Some(at)
        } else {
            None
        }
    }

    /// Whether a page is there.
    pub(crate) fn has(&self, number: u64) -> bool
        ensures there { IsTrue result → HasPage (page_list self.now) number }
        ensures none { IsFalse result → page_at (page_list self.now) number ≡ None }
    {
        self.find(number).is_some()
    }

    /// The page at a place of the list, which is counted from 0.
    pub(crate) fn page(&self, index: usize) -> &Page
        requires { index < length (page_list self.now) }
        ensures { (d : Page) → result.now ≡ get_or (page_list self.now) index d }
    {
        &self.list[index]
    }

    /// Copies bytes of a page and answers true, or answers false where the page isn't there.
    pub(crate) fn copy_out(&self, number: u64, within: usize, buf: &mut [u8]) -> bool
        requires { within + length buf.old ≤ page_size }
        ensures there { IsTrue result → (page : List ℕ) × (page_at (page_list self.now) number ≡ Some page) × (buf.new ≡ take (length buf.old) (drop within page)) }
        ensures none { IsFalse result → (page_at (page_list self.now) number ≡ None) × (buf.new ≡ buf.old) }
    {
        match self.find(number) {
            Some(at) => {
                let page = &self.list[at];
                buf.copy_from_slice(&page.bytes[within..within + buf.len()]);
                true
            }
            None => false,
        }
    }

    /// The bytes of a page, where it is there.
    pub(crate) fn bytes(&self, number: u64) -> Option<&[u8]>
        ensures there { IfSome result (λ page. page_at (page_list self.now) number ≡ Some page.now) }
        ensures whole { IfSome result (λ page. length page.now ≡ page_size) }
        ensures none { IfNone result (page_at (page_list self.now) number ≡ None) }
    {
        match self.find(number) {
            Some(at) => Some(&self.list[at].bytes),
            None => None,
        }
    }

    /// Writes over bytes of a page that is there.
    pub(crate) fn patch(&mut self, number: u64, within: usize, piece: &[u8])
        requires there { HasPage (page_list self.old) number }
        requires inside { within + length piece.now ≤ page_size }
        ensures put { PutIn number within piece.now (page_list self.old) (page_list self.new) }
        ensures left { pages_left self.new ≡ pages_left self.old }
    {
        if let Some(at) = self.find(number) {
            let page = &mut self.list[at];
            page.bytes[within..within + piece.len()].copy_from_slice(piece);
        }
    }

    /// A page of the stock, with any bytes and any number.
    pub(crate) fn from_stock(&mut self) -> Page
        requires { 1 ≤ pages_left self.old }
        ensures list { page_list self.new ≡ page_list self.old }
        ensures left { pages_left self.new + 1 ≡ pages_left self.old }
        ensures slot { HasSlot self.new }
    {
        self.stock.pop().unwrap()
    }

    /// Adds a page that wasn't there.
    pub(crate) fn add(&mut self, page: Page)
        requires slot { HasSlot self.old }
        requires before { page_at (page_list self.old) page.number ≡ None }
        ensures added { Added page.number page.bytes.items (page_list self.old) (page_list self.new) }
        ensures left { pages_left self.new ≡ pages_left self.old }
    {
        let at = self.position(page.number);
        self.list.insert(at, page).unwrap();
    }

    /// Fills the stock up to so many pages, with room for them in the list.
    pub(crate) fn stock_up(&mut self, alloc: Global, count: usize) -> Result<(), AllocError>
        ensures list { page_list self.new ≡ page_list self.old }
        ensures no_less { pages_left self.old ≤ pages_left self.new }
        ensures enough { OnOk result (count ≤ pages_left self.new) }
    {
        self.list.reserve(count.max(self.stock.len()))?;
        while self.stock.len() < count {
            let bytes = vec![in alloc; 0; PAGE_SIZE]?;
            self.stock.push(Page { number: 0, bytes })?;
        }
        Ok(())
    }

    /// Gives back the stock, and the room for it in the list.
    pub(crate) fn shrink_to_fit(&mut self)
        ensures list { page_list self.new ≡ page_list self.old }
        ensures left { pages_left self.new ≡ 0 }
    {
        self.stock.clear();
        self.stock.shrink_to_fit();
        self.list.shrink_to_fit();
    }
}
