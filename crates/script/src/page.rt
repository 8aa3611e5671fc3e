// A page that a line names.
ghost use Rattle.std.specs.Prelude.{◌++◌, Some, decimal};
ghost use Rattle.script.specs.Pages.{is_open};
ghost use Rattle.script.specs.Shown.{page_name};

use std::fmt;

// Whose a page is: an open one is the system's own, and cells are made of closed ones.
#[derive(Clone, Copy, Debug, PartialEq, Eq)]
pub enum Side {
    Open,
    Closed,
}

#[derive(Clone, Copy, Debug, PartialEq, Eq)]
pub struct Page {
    pub side: Side,
    pub number: u64,
}

impl fmt::Display for Page {
    ghost output = { λ page. Some (page_name (is_open page.side) ++ decimal page.number) };

    fn fmt<W: fmt::Write>(&self, f: &mut fmt::Formatter<W>) -> fmt::Result {
        let number = self.number;
        match self.side {
            Side::Open => write!(f, "open {number}"),
            Side::Closed => write!(f, "closed {number}"),
        }
    }
}
