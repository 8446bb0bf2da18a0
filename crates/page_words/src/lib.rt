// Writes the words of a page: how far it is used, and whose it is.
#![tactic(auto)]

ghost use Rattle.std.specs.Prelude.{◌≡◌, ◌+◌, ◌*◌, ◌≤◌, ◌<◌, length};
ghost use Rattle.layout.specs.Numbers.{dictionary_number};
ghost use Rattle.layout.specs.Fields.{page_at};
ghost use Rattle.page_words.specs.Written.{extended_page, took_page};

use layout::packed::PageState;
use layout::{CURRENT, Dictionary, PAGE_NUMBERS, PAGES, STRIDE, TAKEN, UNTAKEN};
use words::WORD;

// Marks the page as used up to `used`. Its owner and its position stay.
#[tactic(auto, unfolding(crate::specs::Written::extended_page))]
pub fn extend(lists: &mut [u8], page: usize, used: usize)
    requires { (8 * page_at page + 8 ≤ length lists.old) × (used < 2097152) }
    ensures { lists.new ≡ extended_page lists.old page used }
{
    let mut state = PageState::from(words::number_at::<WORD>(lists, PAGES + page));
    state.used = used;
    words::put_number::<WORD>(lists, PAGES + page, state.word());
}

// Makes the page the current one of dictionary d, used up to `used`. The page after it becomes the lowest untaken one.
#[tactic(auto, unfolding(crate::specs::Written::took_page))]
pub fn take_page(lists: &mut [u8], d: Dictionary, page: usize, used: usize)
    requires { (8 * page_at page + 8 ≤ length lists.old) × (used < 2097152) }
    ensures { lists.new ≡ took_page lists.old (dictionary_number d) page used }
{
    let d = usize::from(d);
    // While a page is left, a dictionary has fewer than 1,024 pages. So the remainder is the number itself.
    let taken = words::number_at::<WORD>(lists, TAKEN + STRIDE * d) % PAGE_NUMBERS;
    let state = PageState {
        owner: d + 1,
        used,
        position: taken,
    };
    words::put_number::<WORD>(lists, PAGES + page, state.word());
    words::put_number::<WORD>(lists, TAKEN + STRIDE * d, taken + 1);
    words::put_number::<WORD>(lists, CURRENT + STRIDE * d, page + 1);
    words::put_number::<WORD>(lists, UNTAKEN, page + 1);
}
