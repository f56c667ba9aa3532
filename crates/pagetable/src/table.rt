ghost use Rattle.std.specs.Prelude.{◌≡◌, ◌<◌, ◌≤◌};
ghost use Rattle.pagetable.specs.Pages.{all_blank, all_stale, entered, is_current, page_of};
ghost use Rattle.pagetable.specs.Walks.{all_current};

use crate::page::Page;

// The pages of an area by root, and which of them are current; the others are stale.
// kept: marks beside the pages, and no `Option` of a page, since a stale page keeps what was entered last, which `page`
// promises, and all are marked stale by one write. That a root is below 32 is asked of each call: roots are numbers of the caller's.
#[derive(Drop)]
pub struct PageTable {
    current: [bool; 32],
    pages: [Page; 32],
}

impl PageTable {
    // All pages stale.
    pub fn new() -> PageTable
        ensures { result ≡ all_blank }
    {
        PageTable {
            current: [false; 32],
            pages: [Page::new(); 32],
        }
    }

    // Marks every page stale.
    pub fn mark_stale(&mut self)
        ensures { self.new ≡ all_stale self.old }
    {
        self.current = [false; 32];
    }

    // Marks the page of a root current, with what was worked out for it.
    pub fn enter(&mut self, root: usize, page: Page)
        requires { root < 32 }
        ensures { self.new ≡ entered root page self.old }
    {
        self.current[root] = true;
        self.pages[root] = page;
    }

    // Whether the page of a root is current.
    pub fn is_current(&self, root: usize) -> bool
        requires { root < 32 }
        ensures { result ≡ is_current self.now root }
    {
        self.current[root]
    }

    // Whether the pages of the first so many routers are all current.
    pub fn all_current(&self, count: usize) -> bool
        requires { count ≤ 32 }
        ensures { result ≡ all_current self.now count }
    {
        self.current[..count].iter().all(|current| *current)
    }

    // The page of a root, as it was entered last.
    pub fn page(&self, root: usize) -> Page
        requires { root < 32 }
        ensures { result ≡ page_of self.now root }
    {
        self.pages[root]
    }
}
