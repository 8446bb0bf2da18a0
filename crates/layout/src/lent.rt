// Memory that is lent for reading: sizes in their ranges, which say where each field of `lists` lies, and slices that are long enough for them.
#![tactic(auto)]

ghost use Rattle.std.specs.Prelude.{◌≡◌, ◌≤◌, length};
ghost use Rattle.layout.specs.Sizes.{InRange, page_bytes, list_bytes};

use crate::{DICTIONARIES, KINDS, PAGES, Sizes};

// Every dictionary has three words for each entry number. Every kind has one word for each block, and the global blocks have one each.
const ENTRY_WORDS: usize = 3 * DICTIONARIES;

const BLOCK_WORDS: usize = KINDS + 1;

// Sizes in their ranges.
#[derive(Clone, Copy)]
pub struct Layout {
    pub sizes: Sizes,
    pub ghost in_range: { InRange sizes },
}

// The lists of a dictionary, long enough for their layout.
#[derive(Clone, Copy)]
pub struct Lists<'a> {
    pub layout: Layout,
    pub bytes: &'a [u8],
    pub ghost fit: { list_bytes layout.sizes ≤ length bytes.now },
}

// The lists and the pages of a dictionary, long enough for their layout.
#[derive(Clone, Copy)]
pub struct Memory<'l, 'p> {
    pub lists: Lists<'l>,
    pub pages: &'p [u8],
    pub ghost fit: { page_bytes lists.layout.sizes ≤ length pages.now },
}

impl<'l, 'p> Memory<'l, 'p> {
    ghost use Rattle.std.specs.Prelude.{◌≡◌, ◌&&◌, leb, length, is_some, IfSome};
    ghost use Rattle.layout.specs.Sizes.{page_bytes, list_bytes};

    // The memory in these slices, if they are long enough.
    pub fn new(layout: Layout, lists: &'l [u8], pages: &'p [u8]) -> Option<Memory<'l, 'p>>
        ensures fit { is_some result ≡ (leb (page_bytes layout.sizes) (length pages.now) && leb (list_bytes layout.sizes) (length lists.now)) }
        ensures given { IfSome result (λ m. (m.lists.layout.sizes ≡ layout.sizes) × (m.lists.bytes.now ≡ lists.now) × (m.pages.now ≡ pages.now)) }
    {
        if pages.len() < layout.page_bytes() || lists.len() < layout.list_bytes() {
            return None;
        }
        let lists = Lists {
            layout,
            bytes: lists,
        };
        Some(Memory { lists, pages })
    }
}

impl Layout {
    ghost use Rattle.std.specs.Prelude.{◌≡◌, ◌≤◌};
    ghost use Rattle.layout.specs.Sizes.{made, kinds, dictionaries, page_size, page_bytes, list_bytes};
    ghost use Rattle.layout.specs.Fields.{dict_at, blocks_at};
    ghost use Rattle.layout.specs.Laid.{laid};

    // The layout of these sizes, if each is in its range.
    pub fn new(p: usize, n: usize, e: usize, w: usize, b: usize) -> Option<Layout>
        ensures { laid result ≡ made (record { p = p; n = n; e = e; w = w; b = b }) }
    {
        let sizes = Sizes::new(p, n, e, w, b)?;
        Some(Layout { sizes })
    }

    // How many bytes a page has.
    pub fn page_size(&self) -> usize
        ensures { result ≡ page_size self.now.sizes }
    {
        let p = self.sizes.p;
        1 << p
    }

    // How many bytes `pages` needs.
    pub fn page_bytes(&self) -> usize
        ensures { result ≡ page_bytes self.now.sizes }
    {
        self.sizes.n * self.page_size()
    }

    // How many bytes `lists` needs.
    pub fn list_bytes(&self) -> usize
        ensures { result ≡ list_bytes self.now.sizes }
    {
        let s = self.sizes;
        8 * (PAGES + s.n + ENTRY_WORDS * s.e + BLOCK_WORDS * s.b)
    }

    // The first word of dictionary d. The blocks' words follow those of the last dictionary.
    // Kept: a number, as below. The contract takes the number behind the last dictionary too, as it always did, and a type would ask more.
    pub fn dict_at(&self, d: usize) -> usize
        requires { d ≤ dictionaries }
        ensures { result ≡ dict_at self.now.sizes d }
    {
        let s = self.sizes;
        PAGES + s.n + d * (3 * s.e)
    }

    // The first word of kind k's local blocks. The global blocks' words follow those of the last kind.
    // Kept: a number. It is also asked for the words behind those of the last kind.
    pub fn blocks_at(&self, k: usize) -> usize
        requires { k ≤ kinds }
        ensures { result ≡ blocks_at self.now.sizes k }
    {
        let s = self.sizes;
        PAGES + s.n + ENTRY_WORDS * s.e + k * s.b
    }
}
