// What is counted of each stripe while a table is built.
ghost use Rattle.std.specs.Prelude.{◌≡◌, ◌≢◌, ℕ, ◌<◌, length, OnOk};
ghost use Rattle.file_table.specs.Stripes.{stripe_at, no_stripe, lists_of, page_at, HasRoom};

use disk_model::NoMemory;
use std::alloc::Global;

// How many stripes a page has.
const PAGE: usize = 1024;

/// What is counted of a stripe.
#[derive(Clone, Copy)]
pub struct Stripe {
    // The number, from 1, of the last column that has a block there; 0 where none has.
    pub column: u8,
    // Whether a block there lacks its hash.
    pub unhashed: bool,
}

const NO_STRIPE: Stripe = Stripe {
    column: 0,
    unhashed: false,
};

/// What is counted of each stripe, at first nothing. Memory is taken page by page for the blocks that come, whatever
/// the length that a table is to have.
#[derive(Drop)]
pub struct Stripes {
    // A page that is cut short has nothing counted behind its end.
    pages: Vec<Vec<Stripe>>,
}

impl Stripes {
    pub fn new(alloc: Global) -> Stripes
        ensures { (position : ℕ) → stripe_at result position ≡ no_stripe }
    {
        Stripes {
            pages: Vec::new(alloc),
        }
    }

    /// What is counted of the stripe at a position.
    pub fn at(&self, position: u32) -> Stripe
        ensures { result ≡ stripe_at self.now position }
    {
        let position = position as usize;
        let Some(page) = self.pages.get(position / PAGE) else {
            return NO_STRIPE;
        };
        match page.get(position % PAGE) {
            Some(stripe) => *stripe,
            None => NO_STRIPE,
        }
    }

    /// Takes the memory that `set` needs for a position.
    pub fn make_room(&mut self, position: u32) -> Result<(), NoMemory>
        ensures same { (other : ℕ) → stripe_at self.new other ≡ stripe_at self.old other }
        ensures room { OnOk result (HasRoom self.new position) }
    {
        let number = position as usize / PAGE;
        make_pages(&mut self.pages, number)?;
        let page = &mut self.pages[number];
        if page.len() < PAGE {
            page.resize(PAGE, NO_STRIPE)?;
        }
        Ok(())
    }

    /// Changes what is counted of the stripe at a position.
    pub fn set(&mut self, position: u32, stripe: Stripe)
        requires { HasRoom self.old position }
        ensures here { stripe_at self.new position ≡ stripe }
        ensures others { (other : ℕ) → other ≢ position → stripe_at self.new other ≡ stripe_at self.old other }
    {
        let position = position as usize;
        let page = &mut self.pages[position / PAGE];
        page[position % PAGE] = stripe;
    }
}

// Adds empty pages until there is one of this number.
fn make_pages(pages: &mut Vec<Vec<Stripe>>, number: usize) -> Result<(), NoMemory>
    ensures same { (other : ℕ) → page_at (lists_of pages.new.items) other ≡ page_at (lists_of pages.old.items) other }
    ensures there { OnOk result (number < length pages.new.items) }
{
    let alloc = *pages.allocator();
    while pages.len() <= number {
        pages.push(Vec::new(alloc))?;
    }
    Ok(())
}
